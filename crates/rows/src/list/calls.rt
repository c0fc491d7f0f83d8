// What an ordered list is asked.
ghost use Rattle.std.specs.Prelude.{◌≡◌, ◌-◌, ◌<◌, ◌≤◌, [], ◌++◌, length, drop, is_some, IfSome};
ghost use Rattle.std.specs.Option.{option_to_list};
ghost use Rattle.std.specs.List.{slice_get};
ghost use Rattle.rows.specs.Order.{index_of, row_of, remove_by, change_by};
ghost use Rattle.rows.specs.Meaning.{rows_of, spares_of, room_of, insert_answer, insert_leaves};

use super::moves::{close_rows, open_rows};
use super::{Full, OrderedList};
use crate::row::Row;

impl<'a, P: Copy> OrderedList<'a, P> {
    /// An empty list over the lent rows, whatever they hold.
    pub fn new(rows: &'a mut [Row<P>]) -> OrderedList<'a, P>
        ensures rows { rows_of result ≡ [] }
        ensures spares { spares_of result ≡ rows.old }
        ensures room { room_of result ≡ length rows.old }
    {
        OrderedList { rows, len: 0 }
    }

    /// How many rows it has.
    pub fn len(&self) -> usize
        ensures value { result ≡ length (rows_of self.now) }
        ensures within { result ≤ room_of self.now }
    {
        self.len
    }

    /// How many rows it has room for.
    pub fn room(&self) -> usize
        ensures { result ≡ room_of self.now }
    {
        self.rows.len()
    }

    /// How many rows are free.
    pub fn free(&self) -> usize
        ensures { result ≡ room_of self.now - length (rows_of self.now) }
    {
        self.room() - self.len()
    }

    /// The row at a place, from 0.
    pub fn get(&self, i: usize) -> Option<Row<P>>
        ensures { result ≡ slice_get (rows_of self.now) i }
    {
        self.used().get(i).copied()
    }

    /// The row with the smallest number.
    pub fn first(&self) -> Option<Row<P>>
        ensures { result ≡ slice_get (rows_of self.now) 0 }
    {
        self.get(0)
    }

    /// The first row that is not in use, as it was when it was taken out or lent. The next insertion writes over it.
    pub fn spare(&self) -> Option<Row<P>>
        ensures { result ≡ slice_get (spares_of self.now) 0 }
    {
        self.rows[self.len..].first().copied()
    }

    // The rows in use.
    fn used(&self) -> &[Row<P>]
        ensures { result.now ≡ rows_of self.now }
    {
        &self.rows[..self.len]
    }

    // The place of the first row with a number.
    fn index(&self, number: u64) -> Option<usize>
        ensures value { result ≡ index_of number (rows_of self.now) }
        ensures within { IfSome result (λ i. i < self.now.len) }
    {
        let i = self.used().partition_point(|row| row.number < number);
        let row = self.get(i)?;
        (row.number == number).then_some(i)
    }

    /// The first row with a number.
    pub fn find(&self, number: u64) -> Option<Row<P>>
        ensures { result ≡ row_of number (rows_of self.now) }
    {
        let i = self.index(number)?;
        self.get(i)
    }

    /// Puts a row in its order, behind those of the same number.
    pub fn insert(&mut self, row: Row<P>) -> Result<(), Full>
        ensures answer { result ≡ insert_answer (room_of self.old) (rows_of self.old) }
        ensures after { rows_of self.new ≡ insert_leaves (room_of self.old) row (rows_of self.old) }
        ensures spares { spares_of self.new ≡ drop 1 (spares_of self.old) }
        ensures room { room_of self.new ≡ room_of self.old }
    {
        if self.len == self.rows.len() {
            return Err(Full);
        }
        let i = self
            .used()
            .partition_point(|other| other.number <= row.number);
        open_rows(self.rows, self.len, i, row);
        self.len += 1;
        Ok(())
    }

    /// Takes out the first row with a number.
    pub fn remove(&mut self, number: u64) -> Option<Row<P>>
        ensures answer { result ≡ row_of number (rows_of self.old) }
        ensures after { rows_of self.new ≡ remove_by number (rows_of self.old) }
        ensures spares { spares_of self.new ≡ option_to_list result ++ spares_of self.old }
        ensures room { room_of self.new ≡ room_of self.old }
    {
        let i = self.index(number)?;
        let row = self.get(i);
        close_rows(self.rows, self.len, i);
        self.len -= 1;
        row
    }

    /// Changes what the first row with a number holds, and says whether there is one.
    pub fn change(&mut self, number: u64, part: P) -> bool
        ensures answer { result ≡ is_some (row_of number (rows_of self.old)) }
        ensures after { rows_of self.new ≡ change_by number part (rows_of self.old) }
        ensures spares { spares_of self.new ≡ spares_of self.old }
        ensures room { room_of self.new ≡ room_of self.old }
    {
        let Some(i) = self.index(number) else {
            return false;
        };
        self.rows[i].part = part;
        true
    }
}
