// Packets that go.
ghost use Rattle.std.specs.Prelude.{◌≡◌, ◌+◌, ◌<◌, ◌≤◌};
ghost use Rattle.std.specs.List.{remove};
ghost use Rattle.partials.specs.Joining.{max_partials, without, with_room};
ghost use Rattle.partials.specs.Places.{rotated};
ghost use Rattle.partials.specs.Tables.{partials_in};

use super::finding::index_of;
use super::{MAX_PARTIALS, Row, Table};
use crate::head::Key;

// The rows with the one at `i` behind the others of the first `len`.
fn rotated(mut rows: [Row; MAX_PARTIALS], i: usize, len: usize) -> [Row; MAX_PARTIALS]
    requires within { i < len }
    requires used { len ≤ max_partials }
    ensures { result ≡ rotated rows i len }
{
    rows[i..len].rotate_left(1);
    rows
}

impl Table<'_> {
    // Takes the row at `i` out of use. It is the first spare one then, with its place.
    fn remove(&mut self, i: usize)
        requires within { i < self.old.len }
        ensures after { partials_in self.new ≡ remove (partials_in self.old) i }
        ensures len { self.new.len + 1 ≡ self.old.len }
    {
        let len = self.len;
        // The rows are copied, since they cannot be lent in place beside lent memory.
        self.rows = rotated(self.rows, i, len);
        self.len = len - 1;
    }

    // A spare row, at the cost of the packet begun first where there is none.
    #[tactic(auto, using(crate::proofs::Ends::room_none, crate::proofs::Ends::room_one))]
    pub(crate) fn make_room(&mut self)
        ensures after { partials_in self.new ≡ with_room (partials_in self.old) }
        ensures room { self.new.len < max_partials }
    {
        if self.len == MAX_PARTIALS {
            self.remove(0);
        }
    }

    // Ends the packet of a key, if it stands.
    pub(crate) fn end(&mut self, key: Key)
        ensures { partials_in self.new ≡ without key.sender key.first (partials_in self.old) }
    {
        if let Some(i) = index_of(&self.rows[..self.len], key) {
            self.remove(i);
        }
    }
}
