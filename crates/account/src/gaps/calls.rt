// Making a gap list, and what it is asked.
ghost use Rattle.std.specs.Prelude.{◌≡◌, [], length, Ok, ◌==◌, nat_le};
ghost use Rattle.std.specs.List.{slice_get};
ghost use Rattle.account.specs.Gaps.{gaps_fit, gaps_of, gap_answer, with_gap};

use super::{Gap, GapList, GapState};
use base::limits::MAX_GAPS;
use base::{Cause, Refusal};
use rows::{Full, OrderedList, Row};

/// Whether a gap list can be made over this many rows: 1 to 32.
pub fn gaps_fit(rows: usize) -> Result<(), Refusal>
    ensures { result ≡ gaps_fit rows }
{
    if !(1..=MAX_GAPS).contains(&rows) {
        return Err(Refusal::new(Cause::PartSize, 0));
    }
    Ok(())
}

impl<'a> GapList<'a> {
    /// An empty gap list over the lent rows, whatever they hold.
    pub fn new(rows: &'a mut [Row<Gap>]) -> GapList<'a>
        requires { gaps_fit (length rows.old) ≡ Ok tt }
        ensures { gaps_of result ≡ record { rows = []; room = length rows.entry.now } }
    {
        GapList {
            list: OrderedList::new(rows),
        }
    }

    pub fn is_empty(&self) -> bool
        ensures { result ≡ (length (gaps_of self.now).rows == 0) }
    {
        self.list.len() == 0
    }

    pub(crate) fn is_full(&self) -> bool
        ensures { result ≡ nat_le (gaps_of self.now).room (length (gaps_of self.now).rows) }
    {
        self.list.free() == 0
    }

    /// The row at a place, from 0; its number is the last number of the gap.
    pub fn get(&self, i: usize) -> Option<Row<Gap>>
        ensures { result ≡ slice_get (gaps_of self.now).rows i }
    {
        self.list.get(i)
    }

    // Adds an open row for the numbers from a first to a last, where a row is free.
    pub(crate) fn add(&mut self, first: u64, last: u64) -> Result<(), Full>
        ensures answer { result ≡ gap_answer (gaps_of self.old) }
        ensures after { gaps_of self.new ≡ with_gap first last (gaps_of self.old) }
    {
        self.list.insert(Row {
            number: last,
            part: Gap {
                at: first,
                state: GapState::Open,
            },
        })
    }
}
