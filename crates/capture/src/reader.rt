// Reading a capture.
ghost use Rattle.std.specs.Prelude.{◌≡◌, length};
ghost use Rattle.std.specs.Iterator.{YieldsFirstBy, item_count};
ghost use Rattle.capture.specs.Framing.{EveryReadsBack};
ghost use Rattle.capture.specs.Records.{contents_of, contents_in, next_in, record_in, found_in, records_of, Takes};

use crate::record::{Capture, Malformed, Record};
use base::limits::MAX_CAPTURE;

// The mark MDC and version 1.
const MARK: &[u8] = b"MDC\x00\x01";

/// A capture by its header. None where it is too long or has another header.
pub fn open_capture(bytes: &[u8]) -> Option<Capture<'_>>
    ensures { contents_in result ≡ contents_of bytes.now }
{
    if bytes.len() > MAX_CAPTURE {
        return None;
    }
    let rest = bytes.strip_prefix(MARK)?;
    let (channel, rest) = rest.split_first_chunk()?;
    let (start, records) = rest.split_first_chunk()?;
    Some(Capture {
        channel: u16::from_be_bytes(*channel),
        start: u64::from_be_bytes(*start),
        records,
    })
}

/// The record that bytes of records begin with, and what is left behind it. None where no bytes are left.
pub fn next_record(records: &[u8]) -> Result<Option<(Record<'_>, &[u8])>, Malformed>
    ensures found { found_in result ≡ next_in records.now }
    ensures takes { Takes (length records.now) result }
{
    match records {
        [] => Ok(None),
        [1, rest @ ..] => {
            let (size, rest) = rest.split_first_chunk().ok_or(Malformed)?;
            let size = usize::from(u16::from_be_bytes(*size));
            let (datagram, rest) = rest.split_at_checked(size).ok_or(Malformed)?;
            Ok(Some((Record::Datagram(datagram), rest)))
        }
        [2, rest @ ..] => {
            let (number, rest) = rest.split_first_chunk().ok_or(Malformed)?;
            let number = u64::from_be_bytes(*number);
            Ok(Some((Record::Judge(number), rest)))
        }
        _ => Err(Malformed),
    }
}

// The records of a capture that are left. A malformed one is the last.
#[derive(Drop)]
pub(crate) struct Records<'a>(pub(crate) &'a [u8]);

impl<'a> Iterator for Records<'a> {
    type Item = Result<Record<'a>, Malformed>;

    ghost next_gives = { YieldsFirstBy record_in (λ s. records_of s.0.now) };

    ghost remaining = { item_count (λ s. records_of s.0.now) };

    #[tactic(auto, using(crate::proofs::Taken::records_last, crate::proofs::Taken::records_end))]
    fn next(&mut self) -> Option<Result<Record<'a>, Malformed>> {
        match next_record(self.0) {
            Ok(None) => None,
            Ok(Some((record, rest))) => {
                self.0 = rest;
                Some(Ok(record))
            }
            Err(malformed) => {
                self.0 = &[];
                Some(Err(malformed))
            }
        }
    }
}

/// What is written as a capture reads back: channel, start and every record.
pub fn captures_read_back()
    ensures { EveryReadsBack }
{}
