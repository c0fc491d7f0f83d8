// Splitting a plain body into its messages.
ghost use Rattle.std.specs.Prelude.{◌≡◌, ◌≤◌, map, length, IfSome, IfOk};
ghost use Rattle.base.specs.Fields.{be};
ghost use Rattle.wire.specs.Messages.{split_in, lengths_in, messages_in};
ghost use Rattle.wire.specs.Splitting.{end_at, split_of, Exact};

use crate::messages::Messages;
use base::limits::MAX_MESSAGE;
use base::{Cause, Refusal};

// Where a message ends in `size` bytes, if it starts at `at` and has its place.
fn end_of(at: usize, length: [u8; 4], size: usize) -> Option<usize>
    requires { at ≤ size }
    ensures value { result ≡ end_at size at (be 4 length 0) }
    ensures bound { IfSome result (λ end. end ≤ size) }
{
    let bytes = u32::from_be_bytes(length) as usize;
    if bytes == 0 || bytes > MAX_MESSAGE || bytes > size - at {
        return None;
    }
    Some(at + bytes)
}

/// The messages of a plain body of `count` messages, or the index of the first that has no place in it. The body is the
/// lengths and messages that are answered, and it is that of no others.
#[tactic(auto, using(crate::proofs::Exactly::exact), unfolding(crate::specs::Splitting::split_of))]
pub fn split(body: &[u8], count: u16) -> Result<Messages<'_>, Refusal>
    ensures value { split_in result ≡ split_of count body.now }
    ensures lengths { IfOk result (λ m. lengths_in m ≡ map length (messages_in m)) }
    ensures exact { Exact count body.now }
{
    let n = usize::from(count);
    if body.len() < 4 * n {
        return Err(Refusal::new(Cause::MessageLengths, 1));
    }
    let (table, bytes) = body.split_at(4 * n);
    let (lengths, _) = table.as_chunks::<4>();
    let mut at = 4 * n;
    // A loop by index, since the index is the value of the refusal.
    for (i, length) in lengths.iter().enumerate() {
        let misfit = Refusal::new(Cause::MessageLengths, i as u64 + 1);
        at = end_of(at, *length, body.len()).ok_or(misfit)?;
    }
    if at != body.len() {
        return Err(Refusal::new(Cause::MessageLengths, u64::from(count)));
    }
    Ok(Messages { lengths, bytes })
}
