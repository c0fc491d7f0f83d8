// The records of a table.

use parts::Entry;

/// A part of the area of bytes. It is told by numbers, since a record cannot borrow from the area that lies beside it.
#[derive(Clone, Copy)]
pub struct Span {
    pub start: usize,
    pub len: usize,
}

/// An entry, with its message bytes as a part of the area.
pub type Record = Entry<Span>;
