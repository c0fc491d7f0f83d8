// What is in a capture, a line for each record.
ghost use Rattle.std.specs.Prelude.{◌≡◌, ◌+◌, ◌*◌, ◌≤◌, ◌++◌, map, length, IfOk};
ghost use Rattle.std.specs.List.{concat};
ghost use Rattle.page.specs.Text.{sheet, wrote_all};
ghost use Rattle.wire.specs.Messages.{split_in, lengths_in, messages_in};
ghost use Rattle.wire.specs.Reading.{reading_of};
ghost use Rattle.capture.specs.Inspecting.{is_hidden, looked_into, plain_line, data_line, read_line, record_line, lines_from, inspect_pieces, inspect_room, inspect_text};
ghost use Rattle.capture.specs.Records.{record_in, size_of, records_of};

use crate::lines::{
    Place, push_heartbeat, push_judge, push_lengths, push_malformed, push_packet, push_refusal,
    push_stream,
};
use crate::reader::{Records, open_capture};
use crate::record::{Capture, Malformed, Record};
use base::Refusal;
use page::Page;
use wire::{Messages, Packet, Reading};

/// The bytes that the lines of a capture can have at most.
pub const INSPECT_ROOM: usize = 3_145_728;

// The messages of a plain body whose checksum is right.
fn messages_of(packet: Packet, plain: &[u8]) -> Result<Messages<'_>, Refusal>
    ensures value { split_in result ≡ looked_into packet plain.now }
    ensures lengths { IfOk result (λ m. lengths_in m ≡ map length (messages_in m)) }
    ensures few { IfOk result (λ m. 4 * length (lengths_in m) ≤ length plain.now) }
{
    wire::check_body(packet, plain)?;
    wire::split(plain, packet.count)
}

#[tactic(auto, using(crate::proofs::Written::plain_written))]
fn push_plain(page: &mut Page, place: Place, packet: Packet, plain: &[u8])
    ensures text { sheet page.new ≡ wrote_all (sheet page.old) (plain_line place.index place.channel packet (looked_into packet plain.now)) }
    ensures short { length (concat (plain_line place.index place.channel packet (looked_into packet plain.now))) ≤ 400 + 6 * length plain.now }
{
    match messages_of(packet, plain) {
        Ok(messages) => {
            push_packet(page, place, packet);
            push_lengths(page, messages);
            page.push("\n");
        }
        Err(refusal) => push_refusal(page, place.index, refusal),
    }
}

fn is_hidden(packet: Packet) -> bool
    ensures { result ≡ is_hidden packet }
{
    packet.fragment.is_some() || packet.flag.is_sealed()
}

#[tactic(auto, using(crate::proofs::Written::line_written, crate::proofs::Written::both_long, crate::proofs::Written::shown_part))]
fn push_data(page: &mut Page, place: Place, datagram: &[u8], packet: Packet)
    requires ordered { packet.start ≤ packet.end }
    requires within { packet.end ≤ length datagram.now }
    ensures text { sheet page.new ≡ wrote_all (sheet page.old) (data_line place.index place.channel datagram.now packet) }
    ensures short { length (concat (data_line place.index place.channel datagram.now packet)) ≤ 400 + 6 * length datagram.now }
{
    if is_hidden(packet) {
        push_packet(page, place, packet);
        page.push("\n");
    } else {
        let plain = wire::coded_body(packet, datagram, 0, &[]).unwrap();
        push_plain(page, place, packet, plain);
    }
}

fn push_datagram(page: &mut Page, place: Place, datagram: &[u8])
    ensures text { sheet page.new ≡ wrote_all (sheet page.old) (read_line place.index place.channel datagram.now (reading_of place.channel datagram.now)) }
    ensures short { length (concat (read_line place.index place.channel datagram.now (reading_of place.channel datagram.now))) ≤ 144 + 48 * length datagram.now }
{
    match wire::read(datagram, place.channel) {
        Err(refusal) => push_refusal(page, place.index, refusal),
        Ok(Reading::Heartbeat { sender }) => push_heartbeat(page, place.index, sender),
        Ok(Reading::StreamHeartbeat { sender, last }) => {
            push_stream(page, place, "stream-heartbeat ", sender, last)
        }
        Ok(Reading::StreamEnd { sender, last }) => {
            push_stream(page, place, "stream-end ", sender, last)
        }
        Ok(Reading::Data(packet)) => push_data(page, place, datagram, packet),
    }
}

fn push_record(page: &mut Page, place: Place, found: Result<Record<'_>, Malformed>)
    ensures text { sheet page.new ≡ wrote_all (sheet page.old) (record_line place.channel place.index (record_in found.entry)) }
    ensures short { length (concat (record_line place.channel place.index (record_in found.entry))) ≤ 48 * size_of (record_in found.entry) }
{
    match found {
        Ok(Record::Datagram(datagram)) => push_datagram(page, place, datagram),
        Ok(Record::Judge(number)) => push_judge(page, place.index, number),
        Err(_) => push_malformed(page, place.index),
    }
}

#[tactic(auto, using(crate::proofs::Taken::sizes_fit))]
fn push_records(page: &mut Page, capture: Capture<'_>)
    ensures text { sheet page.new ≡ wrote_all (sheet page.old) (lines_from capture.entry.channel 1 (records_of capture.entry.records.now)) }
    ensures short { length (concat (lines_from capture.entry.channel 1 (records_of capture.entry.records.now))) ≤ 48 * length capture.entry.records.now }
{
    for (index, found) in (1..).zip(Records(capture.records)) {
        let place = Place {
            index,
            channel: capture.channel,
        };
        push_record(page, place, found);
    }
}

/// Writes a line for each record of a capture on a page. Where the page has `INSPECT_ROOM` bytes left, all of them are written.
pub fn inspect(page: &mut Page, bytes: &[u8])
    ensures text { sheet page.new ≡ wrote_all (sheet page.old) (inspect_pieces bytes.now) }
    ensures whole { length (sheet page.old).text + inspect_room ≤ (sheet page.old).room → (sheet page.new).text ≡ (sheet page.old).text ++ inspect_text bytes.now }
{
    match open_capture(bytes) {
        None => push_malformed(page, 0),
        Some(capture) => push_records(page, capture),
    }
}
