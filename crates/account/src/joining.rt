// Joining fragments.
ghost use Rattle.std.specs.Prelude.{◌≡◌, true, is_some, Some};
ghost use Rattle.wire.specs.Bodies.{coded_of};
ghost use Rattle.partials.specs.Meaning.{partials_of};
ghost use Rattle.account.specs.Arriving.{head_for, comes_to, ended_by};
ghost use Rattle.account.specs.Joined.{JoinedTo};

use crate::arrival::Arrival;
use crate::body::Body;
use base::Refusal;
use base::limits::BODY_ROOM;
use partials::{Joined, PartialHead, Partials};
use wire::{Fragment, Packet, coded_body};

fn head_for(packet: Packet, fragment: Fragment) -> PartialHead
    ensures { result ≡ head_for packet fragment }
{
    PartialHead {
        sender: packet.sender,
        first: packet.first,
        count: packet.count,
        flag: packet.flag.0,
        total: fragment.total,
        checksum: packet.checksum,
    }
}

// The coded body of a packet that was not cut is whole. A fragment is joined to those that came before.
pub(crate) fn join(
    arrival: Arrival<'_>,
    partials: &mut Partials<'_>,
    joining: &mut [u8; BODY_ROOM],
) -> Result<Joined, Refusal>
    ensures { JoinedTo
        (comes_to (partials_of partials.old) arrival.entry.packet arrival.entry.datagram.now)
        arrival.entry.packet arrival.entry.datagram.now
        (partials_of partials.old) result (partials_of partials.new) joining.new }
{
    let packet = arrival.packet;
    let piece = &arrival.datagram[packet.start..packet.end];
    match packet.fragment {
        None => Ok(Joined::Whole(piece.len())),
        Some(fragment) => {
            partials.join(head_for(packet, fragment), fragment.number, piece, joining)
        }
    }
}

// The coded body of a whole packet.
pub(crate) fn whole_body<'a>(
    arrival: Arrival<'a>,
    size: usize,
    joining: &'a [u8; BODY_ROOM],
) -> Body<'a>
    requires { is_some (coded_of arrival.packet arrival.datagram.now size joining.now) ≡ true }
    ensures { Some result.bytes.now ≡ coded_of arrival.entry.packet arrival.entry.datagram.now size joining.now }
{
    let bytes = coded_body(arrival.packet, arrival.datagram, size, joining).unwrap();
    Body { bytes }
}

// Ends the partial of a packet that was taken, if it was joined.
pub(crate) fn end_joined(packet: Packet, partials: &mut Partials<'_>)
    ensures { partials_of partials.new ≡ ended_by packet.fragment packet (partials_of partials.old) }
{
    if packet.fragment.is_some() {
        partials.end(packet.sender, packet.first);
    }
}
