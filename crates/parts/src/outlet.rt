// The sink of a channel's entries.
ghost use Rattle.std.specs.Prelude.{◌≡◌, length, ◌==◌};
ghost use Rattle.parts.specs.Given.{entry_of};
ghost use Rattle.parts.specs.Listings.{Listing, Capacity, list_answer, listed, totals_of};

use crate::entry::Entry;
use base::Refusal;

/// An outlet: the sink of the entries. It means the list of entries that were put, with the entries and the message bytes
/// that it has left.
pub trait Outlet {
    ghost listing: { Self → Listing };

    /// It has room for 1 to 65,535 entries in all.
    ghost capacity: { (s : Self) → Capacity (listing s) };

    fn entries_left(&self) -> usize
        ensures { result ≡ (listing self.now).entries_left };

    fn bytes_left(&self) -> usize
        ensures { result ≡ (listing self.now).bytes_left };

    fn is_empty(&self) -> bool
        ensures { result ≡ (length (listing self.now).entries == 0) };

    /// Puts an entry behind the others. It costs one entry and its message bytes.
    fn put(&mut self, entry: Entry<&[u8]>) -> Result<(), Refusal>
        ensures answer { result ≡ list_answer (listing self.old) (entry_of entry.entry) }
        ensures after { listing self.new ≡ listed (listing self.old) (entry_of entry.entry) }
        ensures totals { totals_of (listing self.new) ≡ totals_of (listing self.old) };
}
