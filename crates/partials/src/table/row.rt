// A row of the table.
ghost use Rattle.std.specs.Prelude.{◌≡◌, replicate};
ghost use Rattle.base.specs.Limits.{max_fragments};

use crate::head::PartialHead;
use base::limits::MAX_FRAGMENTS;

// The pieces of a row. It is `as`, since no constant can call `usize::from`.
pub(crate) const PIECES: usize = MAX_FRAGMENTS as usize;

const NO_HEAD: PartialHead = PartialHead {
    sender: 0,
    first: 0,
    count: 0,
    flag: 0,
    total: 0,
    checksum: None,
};

// A packet in reassembly: the lengths of its pieces by number, 0 where none has come, and its place. In the place the pieces
// lie one after another in the order of their numbers.
#[derive(Clone, Copy)]
pub(crate) struct Row {
    pub(crate) head: PartialHead,
    pub(crate) lengths: [u16; PIECES],
    pub(crate) place: usize,
}

impl Row {
    ghost use Rattle.partials.specs.Places.{no_row};

    // A spare row with its place.
    pub(crate) fn spare(place: usize) -> Row
        ensures { result ≡ record { head = no_row.head; lengths = replicate max_fragments 0; place = place } }
    {
        Row {
            head: NO_HEAD,
            lengths: [0; PIECES],
            place,
        }
    }
}
