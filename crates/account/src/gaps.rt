// The gap list: numbers that were reported missing and are not settled yet.
ghost use Rattle.std.specs.Prelude.{◌≤◌};
ghost use Rattle.base.specs.Limits.{max_gaps};
ghost use Rattle.rows.specs.Meaning.{room_of};

use rows::OrderedList;

mod calls;
mod row;

pub use calls::gaps_fit;
pub use row::{Gap, GapState};

/// The rows of the gaps, in the order of their last numbers.
#[derive(Drop)]
pub struct GapList<'a> {
    list: OrderedList<'a, Gap>,
    ghost some: { 1 ≤ room_of list },
    ghost few: { room_of list ≤ max_gaps },
}
