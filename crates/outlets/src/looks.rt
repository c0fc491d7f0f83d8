// What the looks before an outlet is made have in common.
ghost use Rattle.std.specs.Prelude.{◌≡◌};
ghost use Rattle.outlets.specs.Looks.{look_answer, allowed};

use base::limits::MAX_ENTRIES;
use base::{Cause, Refusal};

// Whether an outlet may have room for this many entries: 1 to 65,535.
pub(crate) fn is_allowed(entries: usize) -> bool
    ensures { result ≡ allowed entries }
{
    (1..=MAX_ENTRIES).contains(&entries)
}

// What a look answers.
pub(crate) fn look_answer(fits: bool) -> Result<(), Refusal>
    ensures { result ≡ look_answer fits }
{
    if fits {
        Ok(())
    } else {
        Err(Refusal::new(Cause::PartSize, 0))
    }
}
