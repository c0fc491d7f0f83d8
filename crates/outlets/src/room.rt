// What both outlets try before they take an entry.
ghost use Rattle.std.specs.Prelude.{◌≡◌, []};
ghost use Rattle.parts.specs.Given.{entry_of};
ghost use Rattle.parts.specs.Listings.{list_answer};

use base::{Cause, Refusal};
use parts::Entry;

// Whether an entry fits into what an outlet has left.
pub(crate) fn room_for(
    entry: Entry<&[u8]>,
    entries_left: usize,
    bytes_left: usize,
) -> Result<(), Refusal>
    ensures { result ≡ list_answer (record { entries = []; entries_left = entries_left; bytes_left = bytes_left }) (entry_of entry.entry) }
{
    if entries_left == 0 || entry.message().len() > bytes_left {
        return Err(Refusal::new(Cause::OutletFull, 0));
    }
    Ok(())
}
