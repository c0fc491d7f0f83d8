// Reading a datagram: refusals in the order of their table, then its kind and fields.
ghost use Rattle.std.specs.Prelude.{◌≡◌, ◌+◌, ◌-◌, ◌*◌, ◌≤◌, ◌∷◌, length, take, IfOk, OnOk, ◌==◌};
ghost use Rattle.base.specs.Adler.{adler_of};
ghost use Rattle.base.specs.Fields.{be};
ghost use Rattle.base.specs.Limits.{max_number, max_datagram, max_messages, trailer_size};
ghost use Rattle.wire.specs.Bounds.{Bounds, FragmentBounds};
ghost use Rattle.wire.specs.Header.{head_of};
ghost use Rattle.wire.specs.Reading.{frame_of, sound_head, control_of, first_number_of, fragment_of, checksum_of, reading_of};

use crate::datagram::{Fragment, MARKET, PROTOCOL, Packet, Reading, VERSION};
use crate::fields::bytes_at;
use crate::flag::{Flag, MessageType};
use crate::head::Head;
use base::limits::{MAX_DATAGRAM, MAX_FRAGMENTS, MAX_MESSAGES, MAX_NUMBER, MIN_DATAGRAM, TRAILER};
use base::{Cause, Refusal, adler32};

// The trailer is the checksum of all that stands before it.
fn has_right_trailer(datagram: &[u8]) -> bool
    requires { 4 ≤ length datagram.now }
    ensures { result ≡ (be 4 datagram.now (length datagram.now - 4) == adler_of (take (length datagram.now - 4) datagram.now)) }
{
    let end = datagram.len() - TRAILER;
    u32::from_be_bytes(bytes_at(datagram, end)) == adler32(&datagram[..end])
}

// The head, from the third and fourth byte and what stands behind the first four.
fn head_of(header_size: u8, sender: u8, rest: &[u8]) -> Head
    requires { 16 ≤ length rest.now }
    ensures { result ≡ head_of (0 ∷ (0 ∷ (header_size ∷ (sender ∷ rest.now)))) }
{
    Head {
        header_size,
        sender,
        market: u16::from_be_bytes(bytes_at(rest, 0)),
        channel: u16::from_be_bytes(bytes_at(rest, 2)),
        seq: i64::from_be_bytes(bytes_at(rest, 4)),
        count: u16::from_be_bytes(bytes_at(rest, 12)),
        flag: Flag(u16::from_be_bytes(bytes_at(rest, 14))),
    }
}

// The head of a datagram that is sound as a whole.
#[tactic(auto, unfolding(crate::specs::Reading::frame_of))]
fn framed_head(datagram: &[u8]) -> Result<Head, Refusal>
    ensures value { result ≡ frame_of datagram.now }
    ensures sized { OnOk result (length datagram.now ≤ max_datagram) }
{
    let size = datagram.len();
    if !(MIN_DATAGRAM..=MAX_DATAGRAM).contains(&size) {
        return Err(Refusal::new(Cause::DatagramSize, 0));
    }
    // The first four bytes have names before anything behind them is read.
    let [protocol, version, header_size, sender, rest @ ..] = datagram else {
        return Err(Refusal::new(Cause::DatagramSize, 0));
    };
    if *protocol != PROTOCOL {
        return Err(Refusal::new(Cause::Protocol, 0));
    }
    if *version != VERSION {
        return Err(Refusal::new(Cause::Version, 1));
    }
    if !has_right_trailer(datagram) {
        return Err(Refusal::new(Cause::Trailer, (size - TRAILER) as u64));
    }
    Ok(head_of(*header_size, *sender, rest))
}

// What every header keeps to, on a channel.
#[tactic(auto, unfolding(crate::specs::Reading::sound_head))]
fn sound_head(head: Head, datagram: &[u8], channel: u16) -> Result<Head, Refusal>
    ensures value { result ≡ sound_head channel datagram.now head }
    ensures words { IfOk result (λ h. 5 ≤ h.header_size) }
    ensures room { IfOk result (λ h. 4 * h.header_size + trailer_size ≤ length datagram.now) }
{
    if head.market != MARKET {
        return Err(Refusal::new(Cause::Market, 4));
    }
    if head.channel != 0 && head.channel != channel {
        return Err(Refusal::new(Cause::Channel, 6));
    }
    let flag = head.flag;
    if flag.has_reserved_bits()
        || flag.message_type().is_none()
        || flag.is_compressed()
        || flag.encryption().is_none()
    {
        return Err(Refusal::new(Cause::FlagBits, 18));
    }
    if head.header_size != flag.header_words()
        || datagram.len() < 4 * usize::from(head.header_size) + TRAILER
    {
        return Err(Refusal::new(Cause::HeaderSize, 2));
    }
    Ok(head)
}

// A datagram that is sound as a whole, and its head, which is sound.
#[derive(Clone, Copy)]
struct Frame<'a> {
    head: Head,
    datagram: &'a [u8],
    ghost short: { length datagram.now ≤ max_datagram },
    ghost words: { 5 ≤ head.header_size },
    ghost room: { 4 * head.header_size + trailer_size ≤ length datagram.now },
}

impl Frame<'_> {
    // Where the coded body starts.
    fn start(&self) -> usize
        ensures { result ≡ 4 * self.now.head.header_size }
    {
        4 * usize::from(self.head.header_size)
    }

    // Where the coded body ends.
    fn end(&self) -> usize
        ensures { result ≡ length self.now.datagram.now - trailer_size }
    {
        self.datagram.len() - TRAILER
    }

    // A heartbeat or a stream end.
    #[tactic(auto, unfolding(crate::specs::Reading::control_of))]
    fn control(&self) -> Result<Reading, Refusal>
        ensures value { result ≡ control_of self.now.datagram.now self.now.head }
        ensures bounds { Bounds result self.now.datagram.now }
    {
        let head = self.head;
        let misshapen = Refusal::new(Cause::ControlShape, 6);
        if self.datagram.len() != MIN_DATAGRAM || head.flag.0 != 0 {
            return Err(misshapen);
        }
        let last = head.number().ok_or(misshapen)?;
        let sender = head.sender;
        match (head.channel, head.count) {
            (0, 0) if last == 0 => Ok(Reading::Heartbeat { sender }),
            (0, _) => Err(misshapen),
            (_, 0) => Ok(Reading::StreamHeartbeat { sender, last }),
            _ => Ok(Reading::StreamEnd { sender, last }),
        }
    }

    // The first number of a packet.
    #[tactic(auto, unfolding(crate::specs::Reading::first_number_of))]
    fn first_number(&self) -> Result<u64, Refusal>
        ensures value { result ≡ first_number_of self.now.datagram.now self.now.head }
        ensures few { OnOk result (self.now.head.count ≤ max_messages) }
        ensures first { IfOk result (λ n. 1 ≤ n) }
        ensures last { IfOk result (λ n. n + self.now.head.count - 1 ≤ max_number) }
    {
        let head = self.head;
        if head.count > MAX_MESSAGES {
            return Err(Refusal::new(Cause::MessageCount, 16));
        }
        let flag = head.flag;
        let is_application = flag.message_type() == Some(MessageType::Application);
        if !is_application || !flag.is_by_number() || !flag.has_lengths() {
            return Err(Refusal::new(Cause::DataFlag, 18));
        }
        let out_of_range = Refusal::new(Cause::NumberRange, 8);
        let first = head.number().ok_or(out_of_range)?;
        if first == 0 || first + u64::from(head.count) > MAX_NUMBER + 1 {
            return Err(out_of_range);
        }
        Ok(first)
    }

    // The fragment's numbers, where the datagram is a fragment.
    #[tactic(auto, unfolding(crate::specs::Reading::fragment_of))]
    fn fragment(&self) -> Result<Option<Fragment>, Refusal>
        ensures value { result ≡ fragment_of self.now.datagram.now self.now.head }
        ensures bounds { IfOk result (λ f. FragmentBounds f (4 * self.now.head.header_size) (length self.now.datagram.now - trailer_size)) }
    {
        if !self.head.flag.is_fragmented() {
            return Ok(None);
        }
        let total = u16::from_be_bytes(bytes_at(self.datagram, 20));
        let number = u16::from_be_bytes(bytes_at(self.datagram, 22));
        let is_empty = self.start() == self.end();
        if !(1..=MAX_FRAGMENTS).contains(&total) || !(1..=total).contains(&number) || is_empty {
            return Err(Refusal::new(Cause::Fragment, 20));
        }
        Ok(Some(Fragment { total, number }))
    }

    // The checksum of the plain body, which is the header's last word where the header has one.
    fn checksum(&self) -> Option<u32>
        ensures { result ≡ checksum_of self.now.datagram.now self.now.head }
    {
        let last_word = u32::from_be_bytes(bytes_at(self.datagram, self.start() - 4));
        self.head.flag.has_checksum().then_some(last_word)
    }
}

/// What a datagram is read as on a channel, or the first of its refusals.
#[tactic(auto, unfolding(crate::specs::Reading::reading_of))]
pub fn read(datagram: &[u8], channel: u16) -> Result<Reading, Refusal>
    ensures value { result ≡ reading_of channel datagram.now }
    ensures bounds { Bounds result datagram.now }
{
    let head = sound_head(framed_head(datagram)?, datagram, channel)?;
    let frame = Frame { head, datagram };
    if head.is_control() {
        return frame.control();
    }
    let first = frame.first_number()?;
    let fragment = frame.fragment()?;
    Ok(Reading::Data(Packet {
        header_size: head.header_size,
        sender: head.sender,
        first,
        count: head.count,
        flag: head.flag,
        fragment,
        checksum: frame.checksum(),
        start: frame.start(),
        end: frame.end(),
    }))
}
