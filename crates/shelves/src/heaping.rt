// A binary min-heap of held rows over lent memory.
ghost use Rattle.std.specs.Prelude.{◌≡◌, ◌≤◌, true, length, take};
ghost use Rattle.rows.specs.Order.{rises};
ghost use Rattle.shelves.specs.Sifting.{sort_by, heaped};

use crate::held::Held;
use rows::Row;

mod calls;
mod sifts;

// The first `len` of the lent rows are in use, have distinct numbers, and are in heap order.
#[derive(Drop)]
pub struct Heap<'a> {
    rows: &'a mut [Row<Held>],
    // A count beside the lent memory, and no vector: nothing here takes memory from a heap.
    len: usize,
    ghost fits: { len ≤ length rows.now },
    ghost apart: { rises (sort_by (take len rows.now)) ≡ true },
    ghost ordered: { heaped (take len rows.now) ≡ true },
}
