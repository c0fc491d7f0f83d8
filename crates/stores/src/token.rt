// The coder of a channel that has a token.
ghost use Rattle.std.specs.Prelude.{◌<◌, ◌≤◌};
ghost use Rattle.arrayvec.specs.ArrayVec.{array_vec_len};
ghost use Rattle.base.specs.Limits.{max_token};

use arrayvec::ArrayVec;
use base::limits::MAX_TOKEN;

mod coding;

/// The coder of a channel with a token of 1 to 64 bytes. It is ready for every number. Opening and sealing are alike:
/// each byte of the body is XORed with a byte of the token, in order, and after the token's last byte comes its first again.
#[derive(Drop)]
pub struct TokenCoder {
    token: ArrayVec<u8, MAX_TOKEN>,
    ghost some: { 0 < array_vec_len token },
    ghost fits: { array_vec_len token ≤ max_token },
}
