// The cipher of a channel, by the side that uses it.
ghost use Rattle.std.specs.Prelude.{◌≡◌, ℕ, Bool, List};
ghost use Rattle.parts.specs.Coders.{Opening, Inverse};

/// An opening coder: the cipher's receiving side. It decrypts the body of a packet, in place,
/// by the number of the packet's first message.
pub trait OpeningCoder {
    /// Whether a packet with this first number can be opened.
    ghost ready: { Self → ℕ → Bool };

    /// The plain body, from a packet's first number and its coded body.
    ghost opens: { Self → ℕ → List ℕ → List ℕ };

    /// What holds of every opening coder.
    ghost opening: { (s : Self) → Opening (ready s) (opens s) };

    /// Whether a packet with this first number can be opened.
    fn is_ready(&self, number: u64) -> bool
        ensures { result ≡ ready self.now number };

    /// Puts the plain body in place of the coded one. Nothing changes where the coder is not ready.
    fn open(&self, number: u64, body: &mut [u8])
        ensures { body.new ≡ opens self.now number body.old };
}

/// A sealing coder: an opening coder that can also encrypt.
pub trait SealingCoder: OpeningCoder {
    /// The coded body, from a packet's first number and its plain body.
    ghost seals: { Self → ℕ → List ℕ → List ℕ };

    /// Puts the coded body in place of the plain one. Where the coder is ready, opening undoes sealing
    /// and sealing undoes opening; where it is not, nothing changes.
    fn seal(&self, number: u64, body: &mut [u8])
        ensures value { body.new ≡ seals self.now number body.old }
        ensures inverse { Inverse (Self.OpeningCoder.ready self.now) (Self.OpeningCoder.opens self.now) (seals self.now) };
}
