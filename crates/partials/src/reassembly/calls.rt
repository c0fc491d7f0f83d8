// What can be done with packets in reassembly.
ghost use Rattle.std.specs.Prelude.{◌≡◌, ◌≤◌, [], length, IfOk, Ok, ◌==◌};
ghost use Rattle.base.specs.Areas.{written_at};
ghost use Rattle.partials.specs.Joining.{partials_fit, join_in, answer_of, size_of, after_of, bytes_of, without};
ghost use Rattle.partials.specs.Meaning.{partials_of};

use super::Partials;
use crate::head::{Joined, Key, PartialHead, Piece};
use crate::table::{MAX_PARTIALS, Row, Table};
use base::limits::BODY_ROOM;
use base::{Cause, Refusal};
use std::array;

/// Whether packets can be reassembled in so many bytes: four places of 4,096.
pub fn partials_fit(memory: usize) -> Result<(), Refusal>
    ensures { result ≡ partials_fit memory }
{
    if memory != MAX_PARTIALS * BODY_ROOM {
        return Err(Refusal::new(Cause::PartSize, 0));
    }
    Ok(())
}

impl<'a> Partials<'a> {
    /// No packets yet, over lent memory that `partials_fit` has looked at, whatever it holds.
    pub fn new(memory: &'a mut [u8]) -> Partials<'a>
        requires { partials_fit (length memory.old) ≡ Ok tt }
        ensures { partials_of result ≡ [] }
    {
        Partials {
            table: Table {
                memory,
                rows: array::from_fn(Row::spare),
                len: 0,
            },
        }
    }

    /// Whether no packet is in reassembly.
    #[tactic(auto, using(crate::proofs::Ends::length_in))]
    pub fn is_empty(&self) -> bool
        ensures { result ≡ (length (partials_of self.now) == 0) }
    {
        self.table.len == 0
    }

    /// Joins a piece, by its fragment's number, to the others of its packet. Where it is the last one missing, the packet's
    /// coded body is at the front of `joining`, and the packet stays until `end` is called.
    pub fn join(
        &mut self,
        head: PartialHead,
        number: u16,
        piece: &[u8],
        joining: &mut [u8],
    ) -> Result<Joined, Refusal>
        ensures answer { result ≡ answer_of (join_in joining.old (partials_of self.old) head number piece.now) }
        ensures after { partials_of self.new ≡ after_of (join_in joining.old (partials_of self.old) head number piece.now) (partials_of self.old) }
        ensures buffer { joining.new ≡ written_at joining.old 0 (bytes_of (join_in joining.old (partials_of self.old) head number piece.now)) }
        ensures short { IfOk result (λ joined. size_of joined ≤ length joining.old) }
    {
        let joining = joining
            .as_mut_array()
            .ok_or(Refusal::new(Cause::BufferSize, 0))?;
        self.table.join(Piece::new(head, number, piece)?, joining)
    }

    /// Ends the packet of a sender and a first number, if it stands.
    pub fn end(&mut self, sender: u8, first: u64)
        ensures { partials_of self.new ≡ without sender first (partials_of self.old) }
    {
        self.table.end(Key { sender, first });
    }
}
