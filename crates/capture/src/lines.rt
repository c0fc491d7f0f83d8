// The lines that `inspect` prints.
ghost use Rattle.std.specs.Prelude.{◌≡◌, ◌+◌, ◌*◌, ◌≤◌, length};
ghost use Rattle.std.specs.List.{concat};
ghost use Rattle.page.specs.Text.{sheet, wrote_all};
ghost use Rattle.wire.specs.Messages.{lengths_in};
ghost use Rattle.capture.specs.Inspecting.{named, refusal_line, malformed_line, judge_line, heartbeat_line, stream_line, header_pieces, fragment_pieces, checksum_pieces, body_pieces, packet_pieces, messages_pieces};

use base::{Cause, Refusal};
use page::Page;
use wire::{Fragment, Messages, Packet};

// The number of a record, and the channel of its capture.
#[derive(Clone, Copy)]
pub(crate) struct Place {
    pub(crate) index: u64,
    pub(crate) channel: u16,
}

// Not by `write!`, since a page without room leaves out whole pieces.
fn push_named(page: &mut Page, name: &str, n: u64)
    ensures text { sheet page.new ≡ wrote_all (sheet page.old) (named name.now n) }
    ensures short { length (concat (named name.now n)) ≤ length name.now + 20 }
{
    page.push(name);
    page.push_number(n);
}

#[tactic(auto, unfolding(crate::specs::Inspecting::refusal_line))]
pub(crate) fn push_refusal(page: &mut Page, index: u64, refusal: Refusal)
    ensures text { sheet page.new ≡ wrote_all (sheet page.old) (refusal_line index refusal) }
    ensures short { length (concat (refusal_line index refusal)) ≤ 72 }
{
    push_named(page, "R ", index);
    push_named(page, " ", u64::from(refusal.cause.number()));
    push_named(page, " ", refusal.value);
    page.push("\n");
}

// No `push_refusal`: nothing comes behind the number of the cause.
#[tactic(auto, unfolding(crate::specs::Inspecting::malformed_line))]
pub(crate) fn push_malformed(page: &mut Page, index: u64)
    ensures text { sheet page.new ≡ wrote_all (sheet page.old) (malformed_line index) }
    ensures short { length (concat (malformed_line index)) ≤ 48 }
{
    push_named(page, "R ", index);
    push_named(page, " ", u64::from(Cause::Capture.number()));
    page.push("\n");
}

#[tactic(auto, unfolding(crate::specs::Inspecting::judge_line))]
pub(crate) fn push_judge(page: &mut Page, index: u64, number: u64)
    ensures text { sheet page.new ≡ wrote_all (sheet page.old) (judge_line index number) }
    ensures short { length (concat (judge_line index number)) ≤ 72 }
{
    push_named(page, "judge ", index);
    push_named(page, " number ", number);
    page.push("\n");
}

#[tactic(auto, unfolding(crate::specs::Inspecting::heartbeat_line))]
pub(crate) fn push_heartbeat(page: &mut Page, index: u64, sender: u8)
    ensures text { sheet page.new ≡ wrote_all (sheet page.old) (heartbeat_line index sender) }
    ensures short { length (concat (heartbeat_line index sender)) ≤ 72 }
{
    push_named(page, "heartbeat ", index);
    push_named(page, " sender ", u64::from(sender));
    page.push("\n");
}

#[tactic(auto, unfolding(crate::specs::Inspecting::stream_line))]
pub(crate) fn push_stream(page: &mut Page, place: Place, name: &str, sender: u8, last: u64)
    ensures text { sheet page.new ≡ wrote_all (sheet page.old) (stream_line name.now place.index place.channel sender last) }
    ensures short { length (concat (stream_line name.now place.index place.channel sender last)) ≤ length name.now + 120 }
{
    push_named(page, name, place.index);
    push_named(page, " sender ", u64::from(sender));
    push_named(page, " channel ", u64::from(place.channel));
    push_named(page, " last ", last);
    page.push("\n");
}

fn push_header(page: &mut Page, place: Place, packet: Packet)
    ensures text { sheet page.new ≡ wrote_all (sheet page.old) (header_pieces place.index place.channel packet) }
    ensures short { length (concat (header_pieces place.index place.channel packet)) ≤ 200 }
{
    push_named(page, "data ", place.index);
    push_named(page, " header ", u64::from(packet.header_size));
    push_named(page, " sender ", u64::from(packet.sender));
    push_named(page, " channel ", u64::from(place.channel));
    push_named(page, " first ", packet.first);
    push_named(page, " count ", u64::from(packet.count));
    push_named(page, " flag ", u64::from(packet.flag.0));
}

fn push_fragment(page: &mut Page, fragment: Option<Fragment>)
    ensures text { sheet page.new ≡ wrote_all (sheet page.old) (fragment_pieces fragment) }
    ensures short { length (concat (fragment_pieces fragment)) ≤ 60 }
{
    if let Some(f) = fragment {
        push_named(page, " fragment ", u64::from(f.number));
        push_named(page, " of ", u64::from(f.total));
    }
}

fn push_checksum(page: &mut Page, checksum: Option<u32>)
    ensures text { sheet page.new ≡ wrote_all (sheet page.old) (checksum_pieces checksum) }
    ensures short { length (concat (checksum_pieces checksum)) ≤ 30 }
{
    if let Some(sum) = checksum {
        push_named(page, " checksum ", u64::from(sum));
    }
}

fn push_body(page: &mut Page, packet: Packet)
    ensures text { sheet page.new ≡ wrote_all (sheet page.old) (body_pieces packet) }
    ensures short { length (concat (body_pieces packet)) ≤ 50 }
{
    push_named(page, " body ", packet.start as u64);
    push_named(page, " to ", packet.end as u64);
}

#[tactic(auto, unfolding(crate::specs::Inspecting::packet_pieces))]
pub(crate) fn push_packet(page: &mut Page, place: Place, packet: Packet)
    ensures text { sheet page.new ≡ wrote_all (sheet page.old) (packet_pieces place.index place.channel packet) }
    ensures short { length (concat (packet_pieces place.index place.channel packet)) ≤ 340 }
{
    push_header(page, place, packet);
    push_fragment(page, packet.fragment);
    push_checksum(page, packet.checksum);
    push_body(page, packet);
}

pub(crate) fn push_lengths(page: &mut Page, messages: Messages<'_>)
    ensures text { sheet page.new ≡ wrote_all (sheet page.old) (messages_pieces (lengths_in messages.entry)) }
    ensures short { length (concat (messages_pieces (lengths_in messages.entry))) ≤ 8 + 21 * length (lengths_in messages.entry) }
{
    page.push(" lengths");
    for length in messages.lengths {
        push_named(page, " ", u64::from(u32::from_be_bytes(*length)));
    }
}
