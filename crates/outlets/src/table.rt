// The table: records of the entries, beside an area for their message bytes.
ghost use Rattle.outlets.specs.Tables.{Sound};

mod calls;
mod mapping;
mod records;

pub use calls::table_fits;
pub use records::{Record, Span};

/// An outlet over a lent table of records and a lent area of bytes, with how much of each is in use.
#[derive(Drop)]
pub struct TableOutlet<'a> {
    records: &'a mut [Record],
    // Counts beside the lent memory, and no vectors: nothing here takes memory from a heap.
    used: usize,
    area: &'a mut [u8],
    filled: usize,
    ghost sound: { Sound records.now used area.now filled },
}
