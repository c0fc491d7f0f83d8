// The body of a data line.
ghost use Rattle.std.specs.Prelude.{◌≡◌, length, Some};
ghost use Rattle.words.specs.Words.{words_of, fitting, size_of};
ghost use Rattle.composing.specs.Composing.{front_in, up_to, sized};
ghost use Rattle.composing.specs.Data.{message_of, part_of, all_of, plain_of, marks_of, packing_of, after_five, prepared_of, prepared_in, prepared_sized, data_of};

use crate::packed::packed;
use crate::records::{put, put_datagram};
use base::limits::{BODY_ROOM, MAX_DATAGRAM, MAX_MESSAGE};
use parts::SealingCoder;
use sending::Packing;
use words::{Words, hex_into, hex_size, number, split_word};

/// What a body has of each message: first their sizes, then their contents.
// An enum and no closure: the definition `all_of` goes by it, and a closure would need a clause on what it writes.
#[derive(Clone, Copy)]
pub enum Part {
    Size,
    Content,
}

/// How a datagram is marked.
#[derive(Clone, Copy)]
pub struct Marks {
    pub duplicate: bool,
    pub sealed: bool,
    pub checksum: bool,
}

#[tactic(auto, unfolding(crate::specs::Data::message_of))]
fn message_size(word: &[u8]) -> Option<usize>
    ensures { result ≡ size_of (message_of word.now) }
{
    match word {
        [b't', b':', text @ ..] => Some(text.len()),
        [b'x', b':', hex @ ..] => hex_size(hex),
        _ => None,
    }
}

#[tactic(auto, using(crate::proofs::Messages::front_over), unfolding(crate::specs::Data::message_of))]
fn put_message(word: &[u8], out: &mut [u8]) -> Option<usize>
    ensures { front_in result out.new ≡ sized (fitting (length out.old) (message_of word.now)) }
{
    match word {
        [b't', b':', text @ ..] => put(out, text),
        [b'x', b':', hex @ ..] => hex_into(hex, out),
        _ => None,
    }
}

fn put_part(part: Part, word: &[u8], out: &mut [u8]) -> Option<usize>
    ensures { front_in result out.new ≡ sized (fitting (length out.old) (part_of part word.now)) }
{
    match part {
        Part::Content => put_message(word, out),
        Part::Size => {
            let size = message_size(word).filter(|size| *size <= MAX_MESSAGE)?;
            put(out, &(size as u32).to_be_bytes())
        }
    }
}

// A part of each message of a line, one behind the other.
fn put_all(part: Part, line: &[u8], out: &mut [u8]) -> Option<usize>
    ensures { front_in result out.new ≡ sized (fitting (length out.old) (all_of part (words_of line.now))) }
{
    let mut at = 0;
    for word in Words::new(line) {
        at += put_part(part, word, &mut out[at..])?;
    }
    Some(at)
}

// The body that the messages of a line make.
fn put_plain(line: &[u8], out: &mut [u8]) -> Option<usize>
    ensures { front_in result out.new ≡ sized (fitting (length out.old) (plain_of line.now)) }
{
    let sizes = put_all(Part::Size, line, out)?;
    let contents = put_all(Part::Content, line, &mut out[sizes..])?;
    Some(sizes + contents)
}

#[tactic(auto, unfolding(crate::specs::Data::marks_of))]
fn marks_of(word: &[u8]) -> Option<Marks>
    ensures { result ≡ marks_of word.now }
{
    let (duplicate, sealed, checksum) = match word {
        b"-" => (false, false, false),
        b"d" => (true, false, false),
        b"s" => (false, true, false),
        b"c" => (false, false, true),
        b"ds" => (true, true, false),
        b"dc" => (true, false, true),
        b"sc" => (false, true, true),
        b"dsc" => (true, true, true),
        _ => return None,
    };
    Some(Marks {
        duplicate,
        sealed,
        checksum,
    })
}

#[tactic(auto, unfolding(crate::specs::Data::packing_of))]
fn packing_of(channel: u16, count: u16, rest: &[u8]) -> Option<Packing>
    ensures { result ≡ packing_of channel count rest.now }
{
    let (word, rest) = split_word(rest);
    let sender = u8::try_from(number(word)?).ok()?;
    let (word, rest) = split_word(rest);
    let first = number(word)?;
    let (word, rest) = split_word(rest);
    let marks = marks_of(word)?;
    let (word, rest) = split_word(rest);
    let size = u16::try_from(number(word)?).ok()?;
    let (word, _) = split_word(rest);
    let fragment = u16::try_from(number(word)?).ok()?;
    Some(Packing {
        sender,
        channel,
        first,
        count,
        duplicate: marks.duplicate,
        sealed: marks.sealed,
        checksum: marks.checksum,
        piece_size: usize::from(size),
        fragment,
    })
}

fn after_five(rest: &[u8]) -> &[u8]
    ensures { result.now ≡ after_five rest.now }
{
    let (_, rest) = split_word(rest);
    let (_, rest) = split_word(rest);
    let (_, rest) = split_word(rest);
    let (_, rest) = split_word(rest);
    let (_, rest) = split_word(rest);
    rest
}

fn message_count(line: &[u8]) -> Option<u16>
    ensures { result ≡ up_to 65535 (Some (length (words_of line.now))) }
{
    u16::try_from(Words::new(line).count()).ok()
}

/// What a data line is packed from: the packing, and the size of the plain body, which is written to the front of an area.
pub(crate) fn prepare(channel: u16, rest: &[u8], plain: &mut [u8]) -> Option<(Packing, usize)>
    ensures { prepared_in result plain.new ≡ prepared_sized (prepared_of (length plain.old) channel rest.now) }
{
    let messages = after_five(rest);
    let size = put_plain(messages, plain)?;
    let count = message_count(messages)?;
    let packing = packing_of(channel, count, rest)?;
    Some((packing, size))
}

/// Where a data line is packed: its plain body, and its datagram. Made once for a text, since making it is to zero it.
#[derive(Drop)]
pub(crate) struct Workspace {
    plain: [u8; BODY_ROOM],
    datagram: [u8; MAX_DATAGRAM],
}

impl Workspace {
    pub(crate) fn new() -> Workspace {
        Workspace {
            plain: [0; BODY_ROOM],
            datagram: [0; MAX_DATAGRAM],
        }
    }
}

/// Writes the record of a data line to the front of an area.
pub(crate) fn put_data<C: SealingCoder>(
    coder: &C,
    channel: u16,
    rest: &[u8],
    workspace: &mut Workspace,
    out: &mut [u8],
) -> Option<usize>
    ensures { front_in result out.new ≡ sized (fitting (length out.old) (data_of (C.OpeningCoder.ready coder.now) (C.SealingCoder.seals coder.now) channel rest.now)) }
{
    let (packing, size) = prepare(channel, rest, &mut workspace.plain)?;
    let plain = &workspace.plain[..size];
    let length = packed(coder, packing, plain, &mut workspace.datagram).ok()?;
    put_datagram(out, &workspace.datagram[..length])
}
