// Judging that numbers are missing.
ghost use Rattle.std.specs.Prelude.{◌≡◌, List};
ghost use Rattle.partials.specs.Joining.{Partial};
ghost use Rattle.account.specs.Gaps.{gaps_of};
ghost use Rattle.account.specs.Judging.{out_of_reach, judge_of};
ghost use Rattle.account.specs.States.{numbers_of, state_of, done};

use super::Account;
use crate::answer::Answer;
use crate::gaps::GapList;
use base::{Cause, Refusal};
use parts::{Entry, Outlet, Shelf};

impl Account {
    fn is_out_of_reach(&self, lowest: Option<u64>, k: u64) -> bool
        ensures { result ≡ out_of_reach (numbers_of self.now) lowest k }
    {
        k <= self.numbers.next
            || k > self.numbers.heard + 1
            || lowest.is_some_and(|lowest| lowest < k)
    }

    /// Gives up the numbers from the next expected to below `k`: reports them missing, and goes on at `k`.
    #[tactic(auto, unfolding(crate::specs::Judging::judge_of))]
    pub fn judge<S: Shelf, O: Outlet>(
        &mut self,
        k: u64,
        shelf: &S,
        gaps: &mut GapList<'_>,
        outlet: &mut O,
    ) -> Result<Answer, Refusal>
        ensures { (ps : List Partial) →
            done result (state_of (numbers_of self.new) (S.holding shelf.now) ps (gaps_of gaps.new) (O.listing outlet.new))
            ≡ judge_of (state_of (numbers_of self.old) (S.holding shelf.now) ps (gaps_of gaps.old) (O.listing outlet.old)) k }
    {
        let next = self.numbers.next;
        if self.is_out_of_reach(shelf.lowest(), k) {
            return Err(Refusal::new(Cause::JudgeNumber, next));
        }
        if gaps.is_full() {
            return Err(Refusal::new(Cause::GapRowsFull, next));
        }
        outlet
            .put(Entry::missing(next, k - 1))
            .map_err(|_| Refusal::new(Cause::OutletFull, next))?;
        gaps.add(next, k - 1).unwrap();
        self.numbers.next = k;
        Ok(Answer::Done)
    }
}
