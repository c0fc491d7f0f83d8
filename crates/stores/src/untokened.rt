// The coder of a channel that has no token.
ghost use Rattle.std.specs.Prelude.{false};
ghost use Rattle.stores.specs.Unchanged.{unchanged_opening};

use parts::{OpeningCoder, SealingCoder};

/// The coder of a channel without a token: it is ready for no number, and changes nothing.
#[derive(Clone, Copy)]
pub struct Untokened;

impl OpeningCoder for Untokened {
    ghost ready = { λ _ _. false };

    ghost opens = { λ _ _ b. b };

    ghost opening = { λ _. unchanged_opening };

    fn is_ready(&self, _number: u64) -> bool {
        false
    }

    fn open(&self, _number: u64, _body: &mut [u8]) {}
}

impl SealingCoder for Untokened {
    ghost seals = { λ _ _ b. b };

    fn seal(&self, _number: u64, _body: &mut [u8]) {}
}
