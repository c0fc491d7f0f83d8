// The bytes of records.
ghost use Rattle.std.specs.Prelude.{◌≡◌, ◌<◌, length, Some, None};
ghost use Rattle.words.specs.Words.{fitting};
ghost use Rattle.composing.specs.Composing.{front_in, sized, judge_record, datagram_record, control_head, control_for, judge_of, hex_record, raw_of, heartbeat_of, stream_of};

use crate::fields::{is_blank, last_word};
use base::limits::MAX_NUMBER;
use base::{adler32, write_at};
use words::{hex_into, number, split_word};

// Writes a part to the front of an area.
pub(crate) fn put(out: &mut [u8], part: &[u8]) -> Option<usize>
    ensures { front_in result out.new ≡ sized (fitting (length out.old) (Some part.now)) }
{
    write_at(out, 0, part)
}

fn judge_record(k: u64) -> [u8; 9]
    ensures { result ≡ judge_record k }
{
    let mut record = [2; 9];
    record[1..].copy_from_slice(&k.to_be_bytes());
    record
}

#[tactic(auto, unfolding(crate::specs::Composing::judge_of))]
pub(crate) fn put_judge(rest: &[u8], out: &mut [u8]) -> Option<usize>
    ensures { front_in result out.new ≡ sized (fitting (length out.old) (judge_of rest.now)) }
{
    let k = number(last_word(rest)?)?;
    put(out, &judge_record(k))
}

pub(crate) fn put_datagram(out: &mut [u8], datagram: &[u8]) -> Option<usize>
    requires { length datagram.now < 65536 }
    ensures { front_in result out.new ≡ sized (fitting (length out.old) (Some (datagram_record datagram.now))) }
{
    // By a pattern, since mark and length are one array of three bytes.
    let [high, low] = (datagram.len() as u16).to_be_bytes();
    let start = write_at(out, 0, &[1, high, low])?;
    write_at(out, start, datagram)
}

fn control_head(sender: u8, channel: u16, last: u64, count: u16) -> [u8; 20]
    ensures { result ≡ control_head sender channel last count }
{
    let mut head = [0; 20];
    head[..6].copy_from_slice(&[0xFF, 1, 5, sender, 0, 1]);
    head[6..8].copy_from_slice(&channel.to_be_bytes());
    head[8..16].copy_from_slice(&last.to_be_bytes());
    head[16..18].copy_from_slice(&count.to_be_bytes());
    head
}

fn control(sender: u8, channel: u16, last: u64, count: u16) -> [u8; 24]
    ensures { result ≡ control_for sender channel last count }
{
    let head = control_head(sender, channel, last, count);
    let mut datagram = [0; 24];
    datagram[..20].copy_from_slice(&head);
    datagram[20..].copy_from_slice(&adler32(&head).to_be_bytes());
    datagram
}

// A record with the datagram that a word spells in hexadecimal.
fn put_hex(word: &[u8], out: &mut [u8]) -> Option<usize>
    ensures { front_in result out.new ≡ sized (fitting (length out.old) (hex_record word.now)) }
{
    if out.len() < 3 {
        return None;
    }
    let size = hex_into(word, &mut out[3..])?;
    // By a pattern, as for a datagram.
    let [high, low] = u16::try_from(size).ok()?.to_be_bytes();
    let start = write_at(out, 0, &[1, high, low])?;
    Some(start + size)
}

#[tactic(auto, unfolding(crate::specs::Composing::raw_of))]
pub(crate) fn put_raw(rest: &[u8], out: &mut [u8]) -> Option<usize>
    ensures { front_in result out.new ≡ sized (fitting (length out.old) (raw_of rest.now)) }
{
    let (word, more) = split_word(rest);
    if !is_blank(more) {
        return None;
    }
    put_hex(word, out)
}

#[tactic(auto, unfolding(crate::specs::Composing::heartbeat_of))]
pub(crate) fn put_heartbeat(rest: &[u8], out: &mut [u8]) -> Option<usize>
    ensures { front_in result out.new ≡ sized (fitting (length out.old) (heartbeat_of rest.now)) }
{
    let sender = u8::try_from(number(last_word(rest)?)?).ok()?;
    put_datagram(out, &control(sender, 0, 0, 0))
}

// What tells a stream heartbeat and a stream end apart is the count of messages in their headers.
pub(crate) const STREAM_HEARTBEAT: u16 = 0;

pub(crate) const STREAM_END: u16 = 0xFFFF;

#[tactic(auto, unfolding(crate::specs::Composing::stream_of))]
pub(crate) fn put_stream(channel: u16, count: u16, rest: &[u8], out: &mut [u8]) -> Option<usize>
    ensures { front_in result out.new ≡ sized (fitting (length out.old) (stream_of channel count rest.now)) }
{
    let (word, rest) = split_word(rest);
    let sender = u8::try_from(number(word)?).ok()?;
    let last = number(last_word(rest)?).filter(|n| *n <= MAX_NUMBER)?;
    put_datagram(out, &control(sender, channel, last, count))
}
