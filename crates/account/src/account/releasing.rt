// Releasing what is held.
ghost use Rattle.std.specs.Prelude.{◌≡◌, ◌+◌, ◌≤◌, List, length, Some};
ghost use Rattle.std.specs.List.{slice_get};
ghost use Rattle.base.specs.Limits.{max_number};
ghost use Rattle.parts.specs.Holdings.{Holding, lowest_of};
ghost use Rattle.partials.specs.Joining.{Partial};
ghost use Rattle.wire.specs.Messages.{messages_in};
ghost use Rattle.account.specs.Delivering.{delivered_of};
ghost use Rattle.account.specs.Gaps.{Gaps};
ghost use Rattle.account.specs.Reads.{LowestRead};
ghost use Rattle.account.specs.Releasing.{release_lowest, release_of, wiped};
ghost use Rattle.account.specs.States.{numbers_of, state_of, done};

use super::Account;
use crate::answer::Answer;
use crate::delivering::deliver;
use base::limits::{BODY_ROOM, MAX_NUMBER};
use base::{Cause, Refusal, zero};
use parts::{Outlet, Shelf, Sizes};
use wire::{Messages, split};

// Reads the body of the lowest packet into a buffer.
fn read_lowest<S: Shelf>(shelf: &S, first: u64, plain: &mut [u8; BODY_ROOM]) -> Sizes
    requires { Some first ≡ lowest_of (S.holding shelf.now) }
    ensures { LowestRead (S.holding shelf.now) first result plain.new }
{
    shelf.read(first, plain).unwrap().unwrap()
}

impl Account {
    // Delivers the messages of the packet that is the next expected.
    #[tactic(auto, using(crate::proofs::Deliveries::as_many), unfolding(crate::specs::Delivering::delivered_of))]
    pub(super) fn deliver_all<O: Outlet>(
        &mut self,
        messages: Messages<'_>,
        outlet: &mut O,
    ) -> Result<Answer, Refusal>
        requires { (numbers_of self.old).next + length messages.lengths.now ≤ max_number + 1 }
        ensures { (h : Holding) (ps : List Partial) (g : Gaps) →
            done result (state_of (numbers_of self.new) h ps g (O.listing outlet.new))
            ≡ delivered_of (state_of (numbers_of self.old) h ps g (O.listing outlet.old))
            (numbers_of self.old).next (messages_in messages.entry) }
    {
        deliver(outlet, self.numbers.next, messages)?;
        self.numbers.next += messages.lengths.len() as u64;
        Ok(Answer::Delivered)
    }

    // Delivers the lowest packet that is held, which is the next expected.
    fn release_next<S: Shelf, O: Outlet>(
        &mut self,
        shelf: &mut S,
        outlet: &mut O,
        plain: &mut [u8; BODY_ROOM],
    ) -> Result<Answer, Refusal>
        requires { Some (numbers_of self.old).next ≡ lowest_of (S.holding shelf.old) }
        ensures { (ps : List Partial) (g : Gaps) →
            done result (state_of (numbers_of self.new) (S.holding shelf.new) ps g (O.listing outlet.new))
            ≡ release_lowest (state_of (numbers_of self.old) (S.holding shelf.old) ps g (O.listing outlet.old))
            (slice_get (S.holding shelf.old).pairs 0) }
    {
        let first = self.numbers.next;
        let sizes = read_lowest(shelf, first, plain);
        if u64::from(sizes.count) > MAX_NUMBER + 1 - first {
            return Err(Refusal::new(Cause::NumberRange, 0));
        }
        let messages = split(&plain[..sizes.length], sizes.count)?;
        let delivered = self.deliver_all(messages, outlet)?;
        shelf.take(first);
        Ok(delivered)
    }

    // Looks at the lowest packet that is held.
    fn release_lowest<S: Shelf, O: Outlet>(
        &mut self,
        shelf: &mut S,
        outlet: &mut O,
        plain: &mut [u8; BODY_ROOM],
    ) -> Result<Answer, Refusal>
        ensures { (ps : List Partial) (g : Gaps) →
            done result (state_of (numbers_of self.new) (S.holding shelf.new) ps g (O.listing outlet.new))
            ≡ release_lowest (state_of (numbers_of self.old) (S.holding shelf.old) ps g (O.listing outlet.old))
            (slice_get (S.holding shelf.old).pairs 0) }
    {
        let Some(first) = shelf.lowest() else {
            return Ok(Answer::Done);
        };
        if first < self.numbers.next {
            shelf.take(first);
            return Ok(Answer::Expired);
        }
        if first > self.numbers.next {
            return Ok(Answer::Waiting);
        }
        self.release_next(shelf, outlet, plain)
    }

    /// Looks at the lowest packet that is held: takes it away if it is expired, delivers it if it is the next expected. Both
    /// working buffers have 4,096 bytes, and are zero afterwards.
    #[tactic(auto, unfolding(crate::specs::Releasing::release_of))]
    pub fn release<S: Shelf, O: Outlet>(
        &mut self,
        shelf: &mut S,
        outlet: &mut O,
        joining: &mut [u8],
        plain: &mut [u8],
    ) -> Result<Answer, Refusal>
        ensures does { (ps : List Partial) (g : Gaps) →
            done result (state_of (numbers_of self.new) (S.holding shelf.new) ps g (O.listing outlet.new))
            ≡ release_of (state_of (numbers_of self.old) (S.holding shelf.old) ps g (O.listing outlet.old))
            joining.old plain.old }
        ensures joining { joining.new ≡ wiped joining.old plain.old joining.old }
        ensures plain { plain.new ≡ wiped joining.old plain.old plain.old }
    {
        let wrong_size = Refusal::new(Cause::BufferSize, 0);
        let joining = joining.as_mut_array::<BODY_ROOM>().ok_or(wrong_size)?;
        let plain = plain.as_mut_array::<BODY_ROOM>().ok_or(wrong_size)?;
        let answer = self.release_lowest(shelf, outlet, plain);
        zero(joining);
        zero(plain);
        answer
    }
}
