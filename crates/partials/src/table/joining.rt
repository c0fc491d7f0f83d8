// Pieces that come.
ghost use Rattle.std.specs.Prelude.{◌≡◌, ◌+◌, ◌*◌, ◌<◌, ◌≤◌, false, length, take, Some, None, slice_index_or, slice_set, sum};
ghost use Rattle.base.specs.Areas.{written_at};
ghost use Rattle.base.specs.Limits.{body_room};
ghost use Rattle.partials.specs.Joining.{max_partials, join_at};
ghost use Rattle.partials.specs.Places.{Meets, spliced, front_of, no_row, index_of, misfit};
ghost use Rattle.partials.specs.Tables.{partials_in};

use super::Table;
use super::finding::index_of;
use super::lengths::{all_there, has_piece, sum, with_length};
use super::row::{PIECES, Row};
use crate::head::{FRAGMENT_PLACE, Joined, Piece};
use base::limits::BODY_ROOM;
use base::{Cause, Refusal, write_at};

// Writes `front` with `piece` put in at `at` to the front of `out`.
fn splice(front: &[u8], at: usize, piece: &[u8], out: &mut [u8])
    requires inside { at ≤ length front.now }
    requires room { length front.now + length piece.now ≤ length out.old }
    ensures { out.new ≡ written_at out.old 0 (spliced at front.now piece.now) }
{
    write_at(out, 0, &front[..at]).unwrap();
    write_at(out, at, piece).unwrap();
    write_at(out, at + piece.len(), &front[at..]).unwrap();
}

impl Table<'_> {
    // Writes bytes to the front of a row's place, and the row itself at `i`.
    #[tactic(auto, using(crate::proofs::Keeps::fitting_stored, crate::proofs::Keeps::own_stored, crate::proofs::Keeps::length_stored))]
    fn store(&mut self, i: usize, row: Row, bytes: &[u8])
        requires within { i < max_partials }
        requires fits { misfit row ≡ false }
        requires place { row.place ≡ (slice_index_or self.old.rows i no_row).place }
        requires room { length bytes.now ≤ body_room }
        ensures memory { self.new.memory.now ≡ written_at self.old.memory.now (body_room * row.place) bytes.now }
        ensures rows { self.new.rows ≡ slice_set self.old.rows i row }
        ensures len { self.new.len ≡ self.old.len }
    {
        write_at(self.memory, BODY_ROOM * row.place, bytes).unwrap();
        self.rows[i] = row;
    }

    // Writes the pieces of a row, with a new piece among them, to the front of `out`.
    fn gather(&self, row: Row, piece: Piece<'_>, out: &mut [u8; BODY_ROOM])
        requires place { row.place < max_partials }
        requires room { sum row.lengths + length piece.bytes.now ≤ body_room }
        ensures { out.new ≡ written_at out.old 0 (spliced (sum (take piece.entry.index row.lengths)) (front_of self.now.memory.now row) piece.entry.bytes.now) }
    {
        let used = sum(&row.lengths);
        let start = BODY_ROOM * row.place;
        splice(
            &self.memory[start..start + used],
            sum(&row.lengths[..piece.index]),
            piece.bytes,
            out,
        );
    }

    // A piece of the packet in the row at `i`.
    fn join_to(
        &mut self,
        i: usize,
        piece: Piece<'_>,
        joining: &mut [u8; BODY_ROOM],
    ) -> Result<Joined, Refusal>
        requires { index_of piece.head.sender piece.head.first (take self.old.len self.old.rows) ≡ Some i }
        ensures { Meets (join_at (partials_in self.old) piece.entry.head piece.entry.index piece.entry.bytes.now) (partials_in self.old) joining.old result (partials_in self.new) joining.new }
    {
        let row = self.rows[i];
        if !row.head.agrees(piece.head) {
            return Err(Refusal::new(Cause::FragmentMismatch, FRAGMENT_PLACE));
        }
        if has_piece(&row.lengths, piece.index) {
            return Ok(Joined::Again);
        }
        let used = sum(&row.lengths);
        if piece.bytes.len() > BODY_ROOM - used {
            return Err(Refusal::new(Cause::FragmentsTooLong, FRAGMENT_PLACE));
        }
        let size = used + piece.bytes.len();
        self.gather(row, piece, joining);
        let lengths = with_length(row.lengths, piece.index, piece.bytes.len());
        if all_there(&lengths[..usize::from(piece.head.total)]) {
            return Ok(Joined::Whole(size));
        }
        self.store(i, Row { lengths, ..row }, &joining[..size]);
        Ok(Joined::Kept)
    }

    // A piece of a packet of which none has come.
    fn begin(&mut self, piece: Piece<'_>, joining: &mut [u8; BODY_ROOM]) -> Result<Joined, Refusal>
        requires { index_of piece.head.sender piece.head.first (take self.old.len self.old.rows) ≡ None }
        ensures { Meets (join_at (partials_in self.old) piece.entry.head piece.entry.index piece.entry.bytes.now) (partials_in self.old) joining.old result (partials_in self.new) joining.new }
    {
        if piece.bytes.len() > BODY_ROOM {
            return Err(Refusal::new(Cause::FragmentsTooLong, FRAGMENT_PLACE));
        }
        write_at(joining, 0, piece.bytes).unwrap();
        if piece.head.total == 1 {
            return Ok(Joined::Whole(piece.bytes.len()));
        }
        self.make_room();
        let at = self.len;
        let row = Row {
            head: piece.head,
            lengths: with_length([0; PIECES], piece.index, piece.bytes.len()),
            place: self.rows[at].place,
        };
        self.store(at, row, piece.bytes);
        self.len = at + 1;
        Ok(Joined::Kept)
    }

    // A piece, to the others of its packet.
    pub(crate) fn join(
        &mut self,
        piece: Piece<'_>,
        joining: &mut [u8; BODY_ROOM],
    ) -> Result<Joined, Refusal>
        ensures { Meets (join_at (partials_in self.old) piece.entry.head piece.entry.index piece.entry.bytes.now) (partials_in self.old) joining.old result (partials_in self.new) joining.new }
    {
        match index_of(&self.rows[..self.len], piece.head.key()) {
            None => self.begin(piece, joining),
            Some(i) => self.join_to(i, piece, joining),
        }
    }
}
