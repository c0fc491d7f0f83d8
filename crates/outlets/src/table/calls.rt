// Making a table outlet, and what it is asked.
ghost use Rattle.std.specs.Prelude.{◌≡◌, ◌+◌, ◌≤◌, true, [], length, Ok};
ghost use Rattle.std.specs.Option.{option_map};
ghost use Rattle.std.specs.List.{slice_get};
ghost use Rattle.parts.specs.Given.{entry_of};
ghost use Rattle.parts.specs.Listings.{fits, with_entry};
ghost use Rattle.outlets.specs.Looks.{table_fits};
ghost use Rattle.outlets.specs.Meaning.{table_meaning, table_capacity};
ghost use Rattle.outlets.specs.Tables.{part_of, entry_by, record_of, ends_by};

use super::mapping::map_message;
use super::{Record, Span, TableOutlet};
use crate::looks::{is_allowed, look_answer};
use crate::room::room_for;
use base::{Refusal, write_at};
use parts::{Entry, Outlet};

/// Whether an outlet can be made over this many records: 1 to 65,535.
pub fn table_fits(records: usize) -> Result<(), Refusal>
    ensures { result ≡ table_fits records }
{
    look_answer(is_allowed(records))
}

// The record of an entry whose message stands at a part of the area.
fn record_of(entry: Entry<&[u8]>, span: Span) -> Record
    ensures { result ≡ record_of (entry_of entry.entry) span }
{
    map_message(entry, |_| span)
}

// A part of the area.
fn part(area: &[u8], span: Span) -> &[u8]
    requires { span.start + span.len ≤ length area.now }
    ensures { result.now ≡ part_of area.now span }
{
    &area[span.start..span.start + span.len]
}

// The entry that a record stands for.
fn entry_by(area: &[u8], kept: Record) -> Entry<&[u8]>
    requires { ends_by (length area.now) kept ≡ true }
    ensures { entry_of result ≡ entry_by area.now kept }
{
    map_message(kept, |span| part(area, span))
}

impl<'a> TableOutlet<'a> {
    /// An empty outlet over the lent records and area, whatever they hold.
    pub fn new(records: &'a mut [Record], area: &'a mut [u8]) -> TableOutlet<'a>
        requires { table_fits (length records.old) ≡ Ok tt }
        ensures { table_meaning result ≡ record { entries = []; entries_left = length records.old; bytes_left = length area.old } }
    {
        TableOutlet {
            records,
            used: 0,
            area,
            filled: 0,
        }
    }

    /// The entry at a place, from 0.
    pub fn get(&self, i: usize) -> Option<Entry<&[u8]>>
        ensures { option_map entry_of result ≡ slice_get (table_meaning self.now).entries i }
    {
        let kept = *self.records[..self.used].get(i)?;
        Some(entry_by(self.area, kept))
    }

    // Keeps an entry behind the others.
    fn append(&mut self, entry: Entry<&[u8]>)
        requires { fits (table_meaning self.old) (entry_of entry) ≡ true }
        ensures { table_meaning self.new ≡ with_entry (table_meaning self.old) (entry_of entry.entry) }
    {
        let message = entry.message();
        let span = Span {
            start: self.filled,
            len: message.len(),
        };
        write_at(self.area, span.start, message).unwrap();
        self.records[self.used] = record_of(entry, span);
        self.used += 1;
        self.filled += message.len();
    }
}

impl Outlet for TableOutlet<'_> {
    ghost listing = { table_meaning };

    ghost capacity = { table_capacity };

    fn entries_left(&self) -> usize {
        self.records.len() - self.used
    }

    fn bytes_left(&self) -> usize {
        self.area.len() - self.filled
    }

    fn is_empty(&self) -> bool {
        self.used == 0
    }

    fn put(&mut self, entry: Entry<&[u8]>) -> Result<(), Refusal> {
        room_for(entry, self.entries_left(), self.bytes_left())?;
        self.append(entry);
        Ok(())
    }
}
