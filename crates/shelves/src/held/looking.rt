// The look before a shelf is made, and the numbers of its places.
ghost use Rattle.std.specs.Prelude.{◌≡◌, ◌≤◌, true, length};
ghost use Rattle.base.specs.Limits.{max_places};
ghost use Rattle.shelves.specs.Racks.{shelf_fits, tidy};

use super::Held;
use base::limits::{BODY_ROOM, MAX_PLACES};
use base::{Cause, Refusal};
use rows::Row;

/// Whether a shelf can be made over this many rows and bytes: 1 to 64 rows, and 4,096 bytes for each.
pub fn shelf_fits(rows: usize, bytes: usize) -> Result<(), Refusal>
    ensures { result ≡ shelf_fits rows bytes }
{
    if !(1..=MAX_PLACES).contains(&rows) || bytes != BODY_ROOM * rows {
        return Err(Refusal::new(Cause::PartSize, 0));
    }
    Ok(())
}

// Gives each of the lent rows a place of its own.
pub(crate) fn number_places(rows: &mut [Row<Held>])
    requires { length rows.old ≤ max_places }
    ensures { tidy (length rows.new) rows.new ≡ true }
{
    for (i, row) in rows.iter_mut().enumerate() {
        *row = Row {
            number: 0,
            part: Held {
                count: 0,
                size: 0,
                place: i as u8,
            },
        };
    }
}
