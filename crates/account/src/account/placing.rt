// Placing a whole packet.
ghost use Rattle.std.specs.Prelude.{◌≡◌, List, length};
ghost use Rattle.parts.specs.Listings.{Listing};
ghost use Rattle.partials.specs.Joining.{Partial};
ghost use Rattle.wire.specs.Messages.{messages_in};
ghost use Rattle.account.specs.Arriving.{held_of, placed_of};
ghost use Rattle.account.specs.Gaps.{Gaps};
ghost use Rattle.account.specs.States.{numbers_of, state_of, done};

use super::Account;
use crate::answer::Answer;
use crate::arrival::Arrival;
use crate::body::Body;
use base::{Cause, Refusal};
use parts::{Outlet, Shelf};
use wire::Messages;

impl Account {
    // Holds a packet until its number is expected.
    #[tactic(auto, unfolding(crate::specs::Arriving::held_of))]
    fn hold<S: Shelf>(
        &mut self,
        arrival: Arrival<'_>,
        plain: Body<'_>,
        shelf: &mut S,
    ) -> Result<Answer, Refusal>
        ensures { (ps : List Partial) (g : Gaps) (l : Listing) →
            done result (state_of (numbers_of self.new) (S.holding shelf.new) ps g l)
            ≡ held_of (state_of (numbers_of self.old) (S.holding shelf.old) ps g l) arrival.entry.packet plain.entry.bytes.now }
    {
        let packet = arrival.packet;
        match shelf.put(packet.first, packet.count, plain.bytes) {
            Ok(()) => {
                self.hear(arrival.last());
                Ok(Answer::Held)
            }
            Err(
                Refusal {
                    cause: Cause::AlreadyHeld,
                    ..
                },
            ) => Ok(Answer::AlreadyHeld),
            Err(refusal) => Err(refusal),
        }
    }

    // Delivers a packet that is the next expected, and holds another.
    #[tactic(auto, unfolding(crate::specs::Arriving::placed_of))]
    pub(super) fn place<S: Shelf, O: Outlet>(
        &mut self,
        arrival: Arrival<'_>,
        plain: Body<'_>,
        messages: Messages<'_>,
        shelf: &mut S,
        outlet: &mut O,
    ) -> Result<Answer, Refusal>
        requires { length messages.lengths.now ≡ arrival.packet.count }
        ensures { (ps : List Partial) (g : Gaps) →
            done result (state_of (numbers_of self.new) (S.holding shelf.new) ps g (O.listing outlet.new))
            ≡ placed_of (state_of (numbers_of self.old) (S.holding shelf.old) ps g (O.listing outlet.old))
            arrival.entry.packet plain.entry.bytes.now (messages_in messages.entry) }
    {
        let packet = arrival.packet;
        let last = arrival.last();
        if self.numbers.end.is_some_and(|end| end < last) {
            return Err(Refusal::new(Cause::PastEnd, packet.first));
        }
        if packet.first != self.numbers.next {
            return self.hold(arrival, plain, shelf);
        }
        let delivered = self.deliver_all(messages, outlet)?;
        self.hear(last);
        Ok(delivered)
    }
}
