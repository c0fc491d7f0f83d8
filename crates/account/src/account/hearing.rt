// Heartbeats and stream ends.
ghost use Rattle.std.specs.Prelude.{◌≡◌, ◌≤◌, List};
ghost use Rattle.base.specs.Limits.{max_number};
ghost use Rattle.parts.specs.Holdings.{Holding};
ghost use Rattle.parts.specs.Listings.{Listing};
ghost use Rattle.partials.specs.Joining.{Partial};
ghost use Rattle.account.specs.Arriving.{heard_to, beat_of, end_of};
ghost use Rattle.account.specs.Gaps.{Gaps};
ghost use Rattle.account.specs.States.{numbers_of, state_of, done};

use super::Account;
use crate::answer::Answer;
use base::{Cause, Refusal};

// The bound of a number that comes is one short clause in each of these; a type for it would be made anew at each call.
impl Account {
    // Has heard of a number.
    pub(super) fn hear(&mut self, number: u64)
        requires { number ≤ max_number }
        ensures { numbers_of self.new ≡ heard_to (numbers_of self.old) number }
    {
        self.numbers.heard = self.numbers.heard.max(number);
    }

    // A heartbeat of the channel, with the last number that was sent.
    #[tactic(auto, unfolding(crate::specs::Arriving::beat_of))]
    pub(super) fn beat(&mut self, last: u64) -> Result<Answer, Refusal>
        requires { last ≤ max_number }
        ensures { (h : Holding) (ps : List Partial) (g : Gaps) (l : Listing) →
            done result (state_of (numbers_of self.new) h ps g l)
            ≡ beat_of (state_of (numbers_of self.old) h ps g l) last }
    {
        if self.numbers.end.is_some_and(|end| end < last) {
            return Err(Refusal::new(Cause::PastEnd, last));
        }
        self.hear(last);
        Ok(Answer::Heartbeat)
    }

    // The end of the stream, with its last number.
    #[tactic(auto, unfolding(crate::specs::Arriving::end_of))]
    pub(super) fn end_at(&mut self, last: u64) -> Result<Answer, Refusal>
        requires { last ≤ max_number }
        ensures { (h : Holding) (ps : List Partial) (g : Gaps) (l : Listing) →
            done result (state_of (numbers_of self.new) h ps g l)
            ≡ end_of (state_of (numbers_of self.old) h ps g l) last }
    {
        if last < self.numbers.heard || self.numbers.end.is_some_and(|end| end != last) {
            return Err(Refusal::new(Cause::PastEnd, last));
        }
        self.numbers.heard = last;
        self.numbers.end = Some(last);
        Ok(Answer::StreamEnd)
    }
}
