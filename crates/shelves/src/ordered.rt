// Rows in number order, as the rows of a shelf.
ghost use Rattle.rows.specs.Meaning.{rows_of, spares_of, room_of};

use crate::held::Held;
use crate::rack::Rack;
use rows::{OrderedList, Row};

impl Rack for OrderedList<'_, Held> {
    ghost contents = { λ l. record { rows = rows_of l; spares = spares_of l; room = room_of l } };

    fn len(&self) -> usize {
        OrderedList::len(self)
    }

    fn room(&self) -> usize {
        OrderedList::room(self)
    }

    fn first(&self) -> Option<Row<Held>> {
        OrderedList::first(self)
    }

    fn find(&self, number: u64) -> Option<Row<Held>> {
        OrderedList::find(self, number)
    }

    fn spare(&self) -> Option<Row<Held>> {
        OrderedList::spare(self)
    }

    fn insert(&mut self, row: Row<Held>) {
        OrderedList::insert(self, row).unwrap();
    }

    fn remove(&mut self, number: u64) -> Option<Row<Held>> {
        OrderedList::remove(self, number)
    }
}
