// What a shelf needs of its rows, in whatever order they stand.
ghost use Rattle.std.specs.Prelude.{◌≡◌, ◌<◌, ◌++◌, length, drop, None};
ghost use Rattle.std.specs.Option.{option_to_list};
ghost use Rattle.std.specs.List.{slice_get};
ghost use Rattle.rows.specs.Order.{row_of, insert_by, remove_by};
ghost use Rattle.shelves.specs.Racks.{Contents};

use crate::held::Held;
use rows::Row;

// Held rows and spare ones, over lent memory.
pub(crate) trait Rack {
    ghost contents: { Self → Contents };

    fn len(&self) -> usize
        ensures { result ≡ length (contents self.now).rows };

    fn room(&self) -> usize
        ensures { result ≡ (contents self.now).room };

    fn first(&self) -> Option<Row<Held>>
        ensures { result ≡ slice_get (contents self.now).rows 0 };

    fn find(&self, number: u64) -> Option<Row<Held>>
        ensures { result ≡ row_of number (contents self.now).rows };

    fn spare(&self) -> Option<Row<Held>>
        ensures { result ≡ slice_get (contents self.now).spares 0 };

    // Puts a row with a new number in use, over the first spare one.
    fn insert(&mut self, row: Row<Held>)
        requires absent { row_of row.number (contents self.old).rows ≡ None }
        requires free { 0 < length (contents self.old).spares }
        ensures rows { (contents self.new).rows ≡ insert_by row (contents self.old).rows }
        ensures spares { (contents self.new).spares ≡ drop 1 (contents self.old).spares }
        ensures room { (contents self.new).room ≡ (contents self.old).room };

    // Takes the row with a number out of use; it becomes the first spare one.
    fn remove(&mut self, number: u64) -> Option<Row<Held>>
        ensures answer { result ≡ row_of number (contents self.old).rows }
        ensures rows { (contents self.new).rows ≡ remove_by number (contents self.old).rows }
        ensures spares { (contents self.new).spares ≡ option_to_list result ++ (contents self.old).spares }
        ensures room { (contents self.new).room ≡ (contents self.old).room };
}
