// Opening an account.
ghost use Rattle.std.specs.Prelude.{◌≡◌};
ghost use Rattle.partials.specs.Meaning.{partials_of};
ghost use Rattle.account.specs.Gaps.{gaps_of};
ghost use Rattle.account.specs.Opening.{all_empty, open_of, opened_in};
ghost use Rattle.account.specs.States.{numbers_of};

use super::{Account, Numbers};
use crate::gaps::GapList;
use base::limits::MAX_NUMBER;
use base::{Cause, Refusal};
use partials::Partials;
use parts::{Outlet, Shelf};

fn all_empty<S: Shelf, O: Outlet>(
    shelf: &S,
    partials: &Partials<'_>,
    gaps: &GapList<'_>,
    outlet: &O,
) -> bool
    ensures { result ≡ all_empty (S.holding shelf.now) (partials_of partials.now) (gaps_of gaps.now) (O.listing outlet.now) }
{
    shelf.is_empty() && partials.is_empty() && gaps.is_empty() && outlet.is_empty()
}

impl Account {
    /// Opens an account for a channel and its numbers from `start` on, over parts that must be empty.
    pub fn open<S: Shelf, O: Outlet>(
        channel: u16,
        start: u64,
        shelf: &S,
        partials: &Partials<'_>,
        gaps: &GapList<'_>,
        outlet: &O,
    ) -> Result<Account, Refusal>
        ensures { opened_in result ≡ open_of channel start (S.holding shelf.now) (partials_of partials.now) (gaps_of gaps.now) (O.listing outlet.now) }
    {
        if channel == 0
            || start == 0
            || start > MAX_NUMBER
            || !all_empty(shelf, partials, gaps, outlet)
        {
            return Err(Refusal::new(Cause::Opening, 0));
        }
        let numbers = Numbers {
            channel,
            start,
            next: start,
            heard: start - 1,
            end: None,
        };
        Ok(Account { numbers })
    }

    /// The account's numbers.
    pub fn numbers(&self) -> Numbers
        ensures { result ≡ numbers_of self.now }
    {
        self.numbers
    }
}
