// Making an image outlet, and what it is asked.
ghost use Rattle.std.specs.Prelude.{◌≡◌, ◌-◌, ◌≤◌, true, [], length, Ok};
ghost use Rattle.base.specs.Limits.{max_entries};
ghost use Rattle.parts.specs.Given.{entry_of};
ghost use Rattle.parts.specs.Listings.{fits, with_entry};
ghost use Rattle.outlets.specs.Images.{image_of, image_by, messages_at};
ghost use Rattle.outlets.specs.Looks.{image_fits};
ghost use Rattle.outlets.specs.Meaning.{image_meaning, image_capacity};

use super::ImageOutlet;
use crate::looks::{is_allowed, look_answer};
use crate::room::room_for;
use base::{Refusal, write_at, zero};
use parts::{Entry, Outlet};

// The mark MDO and version 1.
const FRONT: [u8; 5] = *b"MDO\x00\x01";

// Where the count stands.
const COUNT_AT: usize = 5;

// Where the heads start.
const HEADS_AT: usize = 7;

// The bytes of a head.
const HEAD: usize = 17;

// Where the messages start.
fn messages_at(capacity: usize) -> usize
    requires { capacity ≤ max_entries }
    ensures { result ≡ messages_at capacity }
{
    HEADS_AT + HEAD * capacity
}

/// Whether an outlet for this many entries can be made over this many bytes: 1 to 65,535 entries, and room for all heads.
pub fn image_fits(memory: usize, capacity: usize) -> Result<(), Refusal>
    ensures { result ≡ image_fits memory capacity }
{
    look_answer(is_allowed(capacity) && memory >= messages_at(capacity))
}

impl<'a> ImageOutlet<'a> {
    /// An outlet without entries over the lent memory, whatever that holds.
    pub fn new(memory: &'a mut [u8], capacity: usize) -> ImageOutlet<'a>
        requires { image_fits (length memory.old) capacity ≡ Ok tt }
        ensures listing { image_meaning result ≡ record { entries = []; entries_left = capacity; bytes_left = length memory.old - messages_at capacity } }
        ensures bytes { result.bytes.now ≡ image_of capacity (length memory.old) [] }
    {
        zero(memory);
        write_at(memory, 0, &FRONT).unwrap();
        ImageOutlet {
            bytes: memory,
            capacity,
            count: 0,
            used: 0,
        }
    }

    /// The whole image.
    pub fn view(&self) -> &[u8]
        ensures { result.now ≡ image_by (image_meaning self.now) }
    {
        &*self.bytes
    }

    // Writes an entry behind the others: its head, its message and the new count.
    fn append(&mut self, entry: Entry<&[u8]>)
        requires { fits (image_meaning self.old) (entry_of entry) ≡ true }
        ensures { image_meaning self.new ≡ with_entry (image_meaning self.old) (entry_of entry.entry) }
    {
        let message = entry.message();
        let head_at = HEADS_AT + HEAD * usize::from(self.count);
        let message_at = messages_at(self.capacity) + self.used;
        let count = self.count + 1;
        // Lent once for the three writes, since the memory is no image between them.
        let bytes = &mut *self.bytes;
        write_at(bytes, head_at, &entry.head()).unwrap();
        write_at(bytes, message_at, message).unwrap();
        write_at(bytes, COUNT_AT, &count.to_be_bytes()).unwrap();
        self.count = count;
        self.used += message.len();
    }
}

impl Outlet for ImageOutlet<'_> {
    ghost listing = { image_meaning };

    ghost capacity = { image_capacity };

    fn entries_left(&self) -> usize {
        self.capacity - usize::from(self.count)
    }

    fn bytes_left(&self) -> usize {
        self.bytes.len() - messages_at(self.capacity) - self.used
    }

    fn is_empty(&self) -> bool {
        self.count == 0
    }

    fn put(&mut self, entry: Entry<&[u8]>) -> Result<(), Refusal> {
        room_for(entry, self.entries_left(), self.bytes_left())?;
        self.append(entry);
        Ok(())
    }
}
