// The file image: the heads of the entries, then their messages, in one area of bytes.
ghost use Rattle.outlets.specs.Reading.{Holds, Within};

mod calls;

pub use calls::image_fits;

/// An outlet that is a file image in lent memory. Beside the memory it has for how many entries there are heads, and how
/// many entries and message bytes it holds.
#[derive(Drop)]
pub struct ImageOutlet<'a> {
    bytes: &'a mut [u8],
    // Counts beside the lent memory, and no vectors: nothing here takes memory from a heap.
    capacity: usize,
    count: u16,
    used: usize,
    ghost holds: { Holds bytes.now capacity count used },
    ghost within: { Within bytes.now capacity count used },
}
