// What a datagram comes to, layer by layer. The answers of reading, joining, coding and splitting are each taken by a
// `let .. else` and not by `?`, so that it is seen where a refusal leaves.
ghost use Rattle.std.specs.Prelude.{◌≡◌, List};
ghost use Rattle.partials.specs.Joining.{Partial};
ghost use Rattle.partials.specs.Meaning.{partials_of};
ghost use Rattle.wire.specs.Reading.{reading_of};
ghost use Rattle.account.specs.Arriving.{coder_of, whole_of, data_of, read_then, arrive_of};
ghost use Rattle.account.specs.Gaps.{Gaps};
ghost use Rattle.account.specs.Releasing.{wiped};
ghost use Rattle.account.specs.States.{numbers_of, state_of, done};

use super::Account;
use crate::answer::Answer;
use crate::arrival::Arrival;
use crate::body::Body;
use crate::coding::open_body;
use crate::joining::{end_joined, join, whole_body};
use base::limits::BODY_ROOM;
use base::{Cause, Refusal, zero};
use partials::{Joined, Partials};
use parts::{OpeningCoder, Outlet, Shelf};
use wire::{Reading, read, split};

// The lent parts stay apart. With a struct of them, each contract says besides of every `&mut` that it is still the same
// one, and the check makes no proof of arrive.
impl Account {
    // Opens, splits and places a whole packet.
    #[tactic(auto, unfolding(crate::specs::Arriving::whole_of))]
    fn take_whole<S: Shelf, O: Outlet, C: OpeningCoder>(
        &mut self,
        arrival: Arrival<'_>,
        coded: Body<'_>,
        plain: &mut [u8; BODY_ROOM],
        shelf: &mut S,
        outlet: &mut O,
        coder: &C,
    ) -> Result<Answer, Refusal>
        ensures { (ps : List Partial) (g : Gaps) →
            done result (state_of (numbers_of self.new) (S.holding shelf.new) ps g (O.listing outlet.new))
            ≡ whole_of (coder_of (C.ready coder.now) (C.opens coder.now))
            (state_of (numbers_of self.old) (S.holding shelf.old) ps g (O.listing outlet.old))
            arrival.entry.packet coded.entry.bytes.now }
    {
        let opened = open_body(arrival.packet, coded, plain, coder);
        let Ok(body) = opened else {
            return Err(opened.unwrap_err());
        };
        let cut = split(body.bytes, arrival.packet.count);
        let Ok(messages) = cut else {
            return Err(cut.unwrap_err());
        };
        self.place(arrival, body, messages, shelf, outlet)
    }

    // Joins, opens, splits and places data.
    #[tactic(auto, unfolding(crate::specs::Arriving::data_of))]
    fn take_data<S: Shelf, O: Outlet, C: OpeningCoder>(
        &mut self,
        arrival: Arrival<'_>,
        joining: &mut [u8; BODY_ROOM],
        plain: &mut [u8; BODY_ROOM],
        shelf: &mut S,
        partials: &mut Partials<'_>,
        outlet: &mut O,
        coder: &C,
    ) -> Result<Answer, Refusal>
        ensures { (g : Gaps) →
            done result (state_of (numbers_of self.new) (S.holding shelf.new) (partials_of partials.new) g (O.listing outlet.new))
            ≡ data_of (coder_of (C.ready coder.now) (C.opens coder.now))
            (state_of (numbers_of self.old) (S.holding shelf.old) (partials_of partials.old) g (O.listing outlet.old))
            arrival.entry.packet arrival.entry.datagram.now }
    {
        if arrival.packet.first < self.numbers.next {
            return Ok(Answer::Expired);
        }
        let joined = join(arrival, partials, joining);
        let Ok(came) = joined else {
            return Err(joined.unwrap_err());
        };
        let size = match came {
            Joined::Again => return Ok(Answer::FragmentAgain),
            Joined::Kept => return Ok(Answer::FragmentKept),
            Joined::Whole(size) => size,
        };
        let coded = whole_body(arrival, size, joining);
        let taken = self.take_whole(arrival, coded, plain, shelf, outlet, coder)?;
        end_joined(arrival.packet, partials);
        Ok(taken)
    }

    // Takes in what a datagram is read as.
    fn take_in<S: Shelf, O: Outlet, C: OpeningCoder>(
        &mut self,
        datagram: &[u8],
        joining: &mut [u8; BODY_ROOM],
        plain: &mut [u8; BODY_ROOM],
        shelf: &mut S,
        partials: &mut Partials<'_>,
        outlet: &mut O,
        coder: &C,
    ) -> Result<Answer, Refusal>
        ensures { (g : Gaps) →
            done result (state_of (numbers_of self.new) (S.holding shelf.new) (partials_of partials.new) g (O.listing outlet.new))
            ≡ read_then (coder_of (C.ready coder.now) (C.opens coder.now))
            (state_of (numbers_of self.old) (S.holding shelf.old) (partials_of partials.old) g (O.listing outlet.old))
            datagram.now (reading_of (numbers_of self.old).channel datagram.now) }
    {
        let read = read(datagram, self.numbers.channel);
        let Ok(reading) = read else {
            return Err(read.unwrap_err());
        };
        match reading {
            Reading::Heartbeat { .. } => Ok(Answer::Heartbeat),
            Reading::StreamHeartbeat { last, .. } => self.beat(last),
            Reading::StreamEnd { last, .. } => self.end_at(last),
            Reading::Data(packet) => {
                let arrival = Arrival { packet, datagram };
                self.take_data(arrival, joining, plain, shelf, partials, outlet, coder)
            }
        }
    }

    /// Takes a datagram. Both working buffers have 4,096 bytes, and are zero afterwards.
    #[tactic(auto, unfolding(crate::specs::Arriving::arrive_of))]
    pub fn arrive<S: Shelf, O: Outlet, C: OpeningCoder>(
        &mut self,
        datagram: &[u8],
        joining: &mut [u8],
        plain: &mut [u8],
        shelf: &mut S,
        partials: &mut Partials<'_>,
        outlet: &mut O,
        coder: &C,
    ) -> Result<Answer, Refusal>
        ensures does { (g : Gaps) →
            done result (state_of (numbers_of self.new) (S.holding shelf.new) (partials_of partials.new) g (O.listing outlet.new))
            ≡ arrive_of (coder_of (C.ready coder.now) (C.opens coder.now))
            (state_of (numbers_of self.old) (S.holding shelf.old) (partials_of partials.old) g (O.listing outlet.old))
            datagram.now joining.old plain.old }
        ensures joining { joining.new ≡ wiped joining.old plain.old joining.old }
        ensures plain { plain.new ≡ wiped joining.old plain.old plain.old }
    {
        let wrong_size = Refusal::new(Cause::BufferSize, 0);
        let joining = joining.as_mut_array::<BODY_ROOM>().ok_or(wrong_size)?;
        let plain = plain.as_mut_array::<BODY_ROOM>().ok_or(wrong_size)?;
        let answer = self.take_in(datagram, joining, plain, shelf, partials, outlet, coder);
        zero(joining);
        zero(plain);
        answer
    }
}
