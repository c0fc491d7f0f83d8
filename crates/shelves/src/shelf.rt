// A shelf over lent memory: rows, and a place of 4,096 bytes for the body of each.
ghost use Rattle.std.specs.Prelude.{◌≡◌, [], length, Ok};
ghost use Rattle.shelves.specs.Racks.{Racked, shelf_fits, holding_of, stock_of};
ghost use Rattle.shelves.specs.Sounds.{racked_sound};

use crate::area::{load, store};
use crate::heaping::Heap;
use crate::held::{Held, number_places};
use crate::rack::Rack;
use base::limits::BODY_ROOM;
use base::{Cause, Refusal};
use parts::{Shelf, Sizes};
use rows::{OrderedList, Row};

/// A shelf that keeps its rows in one of the ways of this crate.
#[derive(Drop)]
pub struct LentShelf<'a, R: Rack> {
    rack: R,
    bytes: &'a mut [u8],
    ghost racked: { Racked (stock_of (R.Rack.contents rack) bytes.now) },
}

/// A shelf that keeps its rows in an ordered list.
pub type OrderedShelf<'a> = LentShelf<'a, OrderedList<'a, Held>>;

/// A shelf that keeps its rows in a binary min-heap.
pub type HeapShelf<'a> = LentShelf<'a, Heap<'a>>;

// A `new` for each: one for all would need the lifetime of the rows in the trait `Rack`, which the check does not cover yet.
impl<'a> OrderedShelf<'a> {
    /// An empty shelf over lent memory that `shelf_fits` has looked at, whatever it holds.
    pub fn new(rows: &'a mut [Row<Held>], bytes: &'a mut [u8]) -> OrderedShelf<'a>
        requires { shelf_fits (length rows.old) (length bytes.old) ≡ Ok tt }
        ensures { ⟦<OrderedShelf<'a> as Shelf>⟧.holding result ≡ record { pairs = []; places = length rows.old } }
    {
        number_places(rows);
        LentShelf {
            rack: OrderedList::new(rows),
            bytes,
        }
    }
}

impl<'a> HeapShelf<'a> {
    /// An empty shelf over lent memory that `shelf_fits` has looked at, whatever it holds.
    pub fn new(rows: &'a mut [Row<Held>], bytes: &'a mut [u8]) -> HeapShelf<'a>
        requires { shelf_fits (length rows.old) (length bytes.old) ≡ Ok tt }
        ensures { ⟦<HeapShelf<'a> as Shelf>⟧.holding result ≡ record { pairs = []; places = length rows.old } }
    {
        number_places(rows);
        LentShelf {
            rack: Heap::new(rows),
            bytes,
        }
    }
}

impl<R: Rack> Shelf for LentShelf<'_, R> {
    ghost holding = { λ s. holding_of (stock_of (R.Rack.contents s.rack) s.bytes.now) };

    ghost sound = { λ s. racked_sound (stock_of (R.Rack.contents s.rack) s.bytes.now) s.racked };

    fn places(&self) -> usize {
        self.rack.room()
    }

    fn is_empty(&self) -> bool {
        self.rack.len() == 0
    }

    fn lowest(&self) -> Option<u64> {
        self.rack.first().map(|row| row.number)
    }

    fn put(&mut self, first: u64, count: u16, body: &[u8]) -> Result<(), Refusal> {
        if body.len() > BODY_ROOM {
            return Err(Refusal::new(Cause::HeldBodySize, 0));
        }
        if self.rack.find(first).is_some() {
            return Err(Refusal::new(Cause::AlreadyHeld, 0));
        }
        let full = Refusal::new(Cause::ShelfFull, first);
        let spare = self.rack.spare().ok_or(full)?;
        let place = spare.part.place;
        let size = body.len() as u16;
        let part = Held { count, size, place };
        self.rack.insert(Row {
            number: first,
            part,
        });
        store(self.bytes, usize::from(place), body);
        Ok(())
    }

    fn read(&self, first: u64, into: &mut [u8]) -> Result<Option<Sizes>, Refusal> {
        if into.len() != BODY_ROOM {
            return Err(Refusal::new(Cause::BufferSize, 0));
        }
        let Some(row) = self.rack.find(first) else {
            return Ok(None);
        };
        load(
            self.bytes,
            usize::from(row.part.place),
            usize::from(row.part.size),
            into,
        );
        Ok(Some(Sizes::from(row.part)))
    }

    fn take(&mut self, first: u64) -> Option<Sizes> {
        let row = self.rack.remove(first)?;
        Some(Sizes::from(row.part))
    }
}
