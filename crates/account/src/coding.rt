// Opening a coded body.
ghost use Rattle.std.specs.Prelude.{◌≡◌, OnOk};
ghost use Rattle.account.specs.Arriving.{coder_of, opened_by, plain_of};
ghost use Rattle.account.specs.Opened.{unit_of, opened_to};

use crate::body::Body;
use base::limits::BODY_ROOM;
use base::{Cause, Refusal};
use parts::OpeningCoder;
use wire::{Packet, check_body};

// Opens a coded body in place, and compares its checksum.
#[tactic(auto, unfolding(crate::specs::Arriving::plain_of))]
fn open_part<C: OpeningCoder>(packet: Packet, part: &mut [u8], coder: &C) -> Result<(), Refusal>
    ensures answer { result ≡ unit_of (plain_of (coder_of (C.ready coder.now) (C.opens coder.now)) packet part.old) }
    ensures after { OnOk result (part.new ≡ opened_by (coder_of (C.ready coder.now) (C.opens coder.now)) packet part.old) }
{
    if packet.flag.is_sealed() {
        if !coder.is_ready(packet.first) {
            return Err(Refusal::new(Cause::CoderNotReady, packet.start as u64));
        }
        coder.open(packet.first, part);
    }
    check_body(packet, part)
}

// Opens a coded body into a buffer.
#[tactic(auto, using(crate::proofs::Codings::plain_ok))]
pub(crate) fn open_body<'a, C: OpeningCoder>(
    packet: Packet,
    coded: Body<'_>,
    plain: &'a mut [u8; BODY_ROOM],
    coder: &C,
) -> Result<Body<'a>, Refusal>
    ensures { opened_to result
        ≡ plain_of (coder_of (C.ready coder.now) (C.opens coder.now)) packet coded.entry.bytes.now }
{
    let bytes = &mut plain[..coded.bytes.len()];
    bytes.copy_from_slice(coded.bytes);
    open_part(packet, bytes, coder)?;
    Ok(Body { bytes })
}
