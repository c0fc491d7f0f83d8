// The packets in reassembly, four at a time.
ghost use Rattle.std.specs.Prelude.{◌≡◌, true};
ghost use Rattle.partials.specs.Known.{distinct, all_unfinished};
ghost use Rattle.partials.specs.Tables.{partials_in};

use crate::table::Table;

mod calls;

pub use calls::partials_fit;

/// Packets of which some fragments have come, at most four, over lent memory.
#[derive(Drop)]
pub struct Partials<'a> {
    table: Table<'a>,
    ghost apart: { distinct (partials_in table) ≡ true },
    ghost each: { all_unfinished (partials_in table) ≡ true },
}
