// What a heap is asked, as the rows of a shelf.
ghost use Rattle.std.specs.Prelude.{◌≡◌, ◌<◌, [], length, take, IfSome};
ghost use Rattle.rows.specs.Order.{index_of};
ghost use Rattle.shelves.specs.Heaps.{heap_rows, heap_spares};

use super::Heap;
use super::sifts::{pull_row, push_row};
use crate::held::Held;
use crate::rack::Rack;
use rows::Row;

impl<'a> Heap<'a> {
    // An empty heap over the lent rows, whatever they hold.
    pub(crate) fn new(rows: &'a mut [Row<Held>]) -> Heap<'a>
        ensures rows { heap_rows result ≡ [] }
        ensures spares { heap_spares result ≡ rows.old }
        ensures room { length result.rows.now ≡ length rows.old }
    {
        Heap { rows, len: 0 }
    }

    // The rows in use.
    fn used(&self) -> &[Row<Held>]
        ensures { result.now ≡ take self.now.len self.now.rows.now }
    {
        &self.rows[..self.len]
    }

    // The place of the row with a number.
    fn position(&self, number: u64) -> Option<usize>
        ensures index { result ≡ index_of number (take self.now.len self.now.rows.now) }
        ensures within { IfSome result (λ i. i < self.now.len) }
    {
        self.used().iter().position(|row| row.number == number)
    }
}

impl Rack for Heap<'_> {
    ghost contents = { λ h. record { rows = heap_rows h; spares = heap_spares h; room = length h.rows.now } };

    fn len(&self) -> usize {
        self.len
    }

    fn room(&self) -> usize {
        self.rows.len()
    }

    fn first(&self) -> Option<Row<Held>> {
        self.used().first().copied()
    }

    fn find(&self, number: u64) -> Option<Row<Held>> {
        let i = self.position(number)?;
        Some(self.rows[i])
    }

    fn spare(&self) -> Option<Row<Held>> {
        self.rows[self.len..].first().copied()
    }

    fn insert(&mut self, row: Row<Held>) {
        push_row(self.rows, self.len, row);
        self.len += 1;
    }

    fn remove(&mut self, number: u64) -> Option<Row<Held>> {
        let i = self.position(number)?;
        let row = pull_row(self.rows, self.len, i);
        self.len -= 1;
        Some(row)
    }
}
