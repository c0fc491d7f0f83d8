// The lines of a text, by their kinds.
ghost use Rattle.std.specs.Prelude.{◌≡◌, [], length, ◌==◌, slice_index};
ghost use Rattle.words.specs.Words.{fitting};
ghost use Rattle.composing.specs.Composing.{front_in, sized};
ghost use Rattle.composing.specs.Lines.{is_idle, opening_of, header_for, header_of, record_of, by_stage, added_by, moved_on, stage_after};

use crate::data::{Workspace, put_data};
use crate::fields::{is_blank, last_word};
use crate::records::{
    STREAM_END, STREAM_HEARTBEAT, put, put_heartbeat, put_judge, put_raw, put_stream,
};
use parts::SealingCoder;
use words::{number, split_word};

fn is_comment(line: &[u8]) -> bool
    ensures { result ≡ (slice_index line.now 0 == 35) }
{
    line.first() == Some(&b'#')
}

#[tactic(auto, unfolding(crate::specs::Lines::is_idle))]
pub(crate) fn is_idle(line: &[u8]) -> bool
    ensures { result ≡ is_idle line.now }
{
    is_blank(line) || is_comment(line)
}

#[tactic(auto, unfolding(crate::specs::Lines::record_of))]
pub(crate) fn put_record<C: SealingCoder>(
    coder: &C,
    channel: u16,
    kind: &[u8],
    rest: &[u8],
    workspace: &mut Workspace,
    out: &mut [u8],
) -> Option<usize>
    ensures { front_in result out.new ≡ sized (fitting (length out.old) (record_of (C.OpeningCoder.ready coder.now) (C.SealingCoder.seals coder.now) channel kind.now rest.now)) }
{
    match kind {
        b"data" => put_data(coder, channel, rest, workspace, out),
        b"judge" => put_judge(rest, out),
        b"raw" => put_raw(rest, out),
        b"heartbeat" => put_heartbeat(rest, out),
        b"stream-heartbeat" => put_stream(channel, STREAM_HEARTBEAT, rest, out),
        b"stream-end" => put_stream(channel, STREAM_END, rest, out),
        _ => None,
    }
}

#[tactic(auto, unfolding(crate::specs::Lines::header_for))]
fn header(channel: u16, start: u64) -> [u8; 15]
    ensures { result ≡ header_for channel start }
{
    let mut header = [0; 15];
    header[..5].copy_from_slice(b"MDC\0\x01");
    header[5..7].copy_from_slice(&channel.to_be_bytes());
    header[7..].copy_from_slice(&start.to_be_bytes());
    header
}

fn opening(rest: &[u8]) -> Option<(u16, u64)>
    ensures { result ≡ opening_of rest.now }
{
    let (word, rest) = split_word(rest);
    let channel = u16::try_from(number(word)?).ok()?;
    let start = number(last_word(rest)?)?;
    Some((channel, start))
}

#[tactic(auto, unfolding(crate::specs::Lines::header_of))]
fn put_header(rest: &[u8], out: &mut [u8]) -> Option<usize>
    ensures { front_in result out.new ≡ sized (fitting (length out.old) (header_of rest.now)) }
{
    let (channel, start) = opening(rest)?;
    put(out, &header(channel, start))
}

fn put_by_stage<C: SealingCoder>(
    coder: &C,
    stage: Option<u16>,
    kind: &[u8],
    rest: &[u8],
    workspace: &mut Workspace,
    out: &mut [u8],
) -> Option<usize>
    ensures { front_in result out.new ≡ sized (fitting (length out.old) (by_stage (C.OpeningCoder.ready coder.now) (C.SealingCoder.seals coder.now) stage kind.now rest.now)) }
{
    match (stage, kind) {
        (Some(channel), _) => put_record(coder, channel, kind, rest, workspace, out),
        (None, b"capture") => put_header(rest, out),
        (None, _) => None,
    }
}

/// Writes what a line adds to the front of an area and answers how much that is. None where the line is bad or does not fit.
#[tactic(auto, unfolding(crate::specs::Lines::added_by))]
pub(crate) fn put_line<C: SealingCoder>(
    coder: &C,
    stage: Option<u16>,
    line: &[u8],
    workspace: &mut Workspace,
    out: &mut [u8],
) -> Option<usize>
    ensures { front_in result out.new ≡ sized (fitting (length out.old) (added_by (C.OpeningCoder.ready coder.now) (C.SealingCoder.seals coder.now) stage line.now)) }
{
    if is_idle(line) {
        return Some(0);
    }
    let (kind, rest) = split_word(line);
    put_by_stage(coder, stage, kind, rest, workspace, out)
}

// The stage behind a line that is not idle. Behind a bad opening it is channel 0; no line is read there.
fn next_stage(stage: Option<u16>, rest: &[u8]) -> Option<u16>
    ensures { result ≡ moved_on stage rest.now }
{
    stage.or_else(|| Some(opening(rest).map_or(0, |(channel, _)| channel)))
}

/// The stage behind a line.
#[tactic(auto, unfolding(crate::specs::Lines::stage_after))]
pub(crate) fn stage_after(stage: Option<u16>, line: &[u8]) -> Option<u16>
    ensures { result ≡ stage_after stage line.now }
{
    if is_idle(line) {
        return stage;
    }
    let (_, rest) = split_word(line);
    next_stage(stage, rest)
}
