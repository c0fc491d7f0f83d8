// A body in memory.
ghost use Rattle.std.specs.Prelude.{◌≤◌, length};
ghost use Rattle.base.specs.Limits.{body_room};

// A body, coded or plain. It fits a working buffer.
#[derive(Clone, Copy)]
pub(crate) struct Body<'a> {
    pub bytes: &'a [u8],
    pub ghost short: { length bytes.now ≤ body_room },
}
