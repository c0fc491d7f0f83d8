// The reorder buffer of a channel.
ghost use Rattle.std.specs.Prelude.{◌≡◌, length, ◌==◌};
ghost use Rattle.parts.specs.Holdings.{Holding, Sound, pair_of, lowest_of, hold_answer, holds, read_answer, read_leaves, take_answer, take_leaves};

use base::Refusal;

/// How many messages a held packet has, and how many bytes its plain body.
#[derive(Clone, Copy)]
pub struct Sizes {
    pub count: u16,
    pub length: usize,
}

/// A shelf: the reorder buffer. It means a map from a packet's first number to its message count and plain body.
pub trait Shelf {
    ghost holding: { Self → Holding };

    /// What a user of any shelf may rely on.
    ghost sound: { (s : Self) → Sound (holding s) };

    /// How many packets it has places for.
    fn places(&self) -> usize
        ensures { result ≡ (holding self.now).places };

    fn is_empty(&self) -> bool
        ensures { result ≡ (length (holding self.now).pairs == 0) };

    /// The smallest first number.
    fn lowest(&self) -> Option<u64>
        ensures { result ≡ lowest_of (holding self.now) };

    /// Adds a packet, whatever its number and count.
    fn put(&mut self, first: u64, count: u16, body: &[u8]) -> Result<(), Refusal>
        ensures answer { result ≡ hold_answer (holding self.old) (pair_of first count body.now) }
        ensures after { holding self.new ≡ holds (holding self.old) (pair_of first count body.now) };

    /// Copies a packet's body into a buffer of 4,096 bytes, with zeros behind it.
    fn read(&self, first: u64, into: &mut [u8]) -> Result<Option<Sizes>, Refusal>
        ensures answer { result ≡ read_answer (holding self.now) first into.old }
        ensures after { into.new ≡ read_leaves (holding self.now) first into.old };

    /// Takes a packet away, so that its place is free.
    fn take(&mut self, first: u64) -> Option<Sizes>
        ensures answer { result ≡ take_answer (holding self.old) first }
        ensures after { holding self.new ≡ take_leaves (holding self.old) first };
}
