// The list: rows in number order, those of one number in the order in which they came.
ghost use Rattle.std.specs.Prelude.{◌≡◌, ◌≤◌, true, length, take};
ghost use Rattle.rows.specs.Order.{ascends};

use crate::row::Row;

mod calls;
mod moves;

/// Rows in number order over lent memory: the first `len` of the lent rows are in use.
#[derive(Drop)]
pub struct OrderedList<'a, P: Copy> {
    rows: &'a mut [Row<P>],
    // A count beside the lent memory, and no vector: nothing here takes memory from a heap.
    len: usize,
    ghost fits: { len ≤ length rows.now },
    ghost sorted: { ascends (take len rows.now) ≡ true },
}

/// No row is free.
#[derive(Clone, Copy, Debug)]
pub struct Full;
