// The body of a packet: where it lies coded, and whether it is sound when plain.
ghost use Rattle.std.specs.Prelude.{◌≡◌};
ghost use Rattle.std.specs.Option.{option_map};
ghost use Rattle.wire.specs.Bodies.{coded_of, checked_of};

use crate::datagram::Packet;
use base::{Cause, Refusal, adler32};

/// The coded body of a packet: a part of its datagram; where fragments were joined, the first `filled` bytes of the
/// joining buffer. None where there are no such bytes.
pub fn coded_body<'a>(
    packet: Packet,
    datagram: &'a [u8],
    filled: usize,
    joining: &'a [u8],
) -> Option<&'a [u8]>
    ensures { option_map (λ x. x.now) result ≡ coded_of packet datagram.now filled joining.now }
{
    match packet.fragment {
        None => datagram.get(packet.start..packet.end),
        Some(_) => joining.get(..filled),
    }
}

/// Whether a plain body has the checksum that its packet names, if it names one.
pub fn check_body(packet: Packet, plain: &[u8]) -> Result<(), Refusal>
    ensures { result ≡ checked_of packet plain.now }
{
    match packet.checksum {
        Some(sum) if adler32(plain) != sum => {
            let place = (4 * u64::from(packet.header_size)).saturating_sub(4);
            Err(Refusal::new(Cause::BodyChecksum, place))
        }
        _ => Ok(()),
    }
}
