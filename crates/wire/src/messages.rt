// A body that was split: where its messages lie.
ghost use Rattle.std.specs.Prelude.{◌≡◌, length, sum_by};
ghost use Rattle.base.specs.Fields.{be};

/// Where the messages of a plain body lie: their lengths, of four bytes each, and all messages one after another.
#[derive(Clone, Copy)]
pub struct Messages<'a> {
    pub lengths: &'a [[u8; 4]],
    pub bytes: &'a [u8],
    // The lengths add up to the bytes.
    pub ghost whole: { sum_by (λ four. be 4 four 0) lengths.now ≡ length bytes.now },
}
