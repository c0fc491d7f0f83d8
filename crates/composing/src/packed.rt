// The packer's answer, by the datagram that stands at the front of its buffer.
ghost use Rattle.std.specs.Prelude.{◌≡◌, ◌≤◌, IfOk};
ghost use Rattle.sending.specs.Packing.{packed_of};
ghost use Rattle.composing.specs.Data.{packed_in};

use base::Refusal;
use base::limits::MAX_DATAGRAM;
use parts::SealingCoder;
use sending::{Packing, pack};

pub(crate) fn packed<C: SealingCoder>(
    coder: &C,
    packing: Packing,
    plain: &[u8],
    buffer: &mut [u8; MAX_DATAGRAM],
) -> Result<usize, Refusal>
    ensures datagram { packed_in result buffer.new ≡ packed_of (C.OpeningCoder.ready coder.now) (C.SealingCoder.seals coder.now) packing plain.now }
    ensures within { IfOk result (λ n. n ≤ 1472) }
{
    pack(coder, packing, plain, buffer)
}
