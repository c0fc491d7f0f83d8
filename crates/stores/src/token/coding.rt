// Making a coder for a token, and coding with it.
ghost use Rattle.std.specs.Prelude.{◌≡◌, ◌<◌, true, length};
ghost use Rattle.stores.specs.Xor.{xored, xored-opening};
ghost use Rattle.stores.specs.Tokens.{token_of, Made};

use super::TokenCoder;
use arrayvec::ArrayVec;
use base::{Cause, Refusal};
use parts::{OpeningCoder, SealingCoder};

// XORs a body with a token that has at least one byte.
#[tactic(auto, using(crate::proofs::Xors::xored_by))]
fn xor(token: &[u8], body: &mut [u8])
    requires { 0 < length token.now }
    ensures { body.new ≡ xored token.now body.old }
{
    for (i, byte) in body.iter_mut().enumerate() {
        *byte ^= token[i % token.len()];
    }
}

impl TokenCoder {
    /// A coder for this token. One that is empty or has more than 64 bytes is refused.
    pub fn new(token: &[u8]) -> Result<TokenCoder, Refusal>
        ensures { Made token.now result }
    {
        match ArrayVec::try_from(token) {
            Ok(token) if !token.is_empty() => Ok(TokenCoder { token }),
            _ => Err(Refusal::new(Cause::PartSize, 0)),
        }
    }
}

impl OpeningCoder for TokenCoder {
    ghost ready = { λ _ _. true };

    ghost opens = { λ s _ b. xored (token_of s) b };

    ghost opening = { λ s. xored-opening (token_of s) };

    fn is_ready(&self, _number: u64) -> bool {
        true
    }

    fn open(&self, _number: u64, body: &mut [u8]) {
        xor(self.token.as_slice(), body);
    }
}

impl SealingCoder for TokenCoder {
    ghost seals = { λ s _ b. xored (token_of s) b };

    fn seal(&self, number: u64, body: &mut [u8]) {
        self.open(number, body);
    }
}
