// An entry with another message.
ghost use Rattle.outlets.specs.Mapping.{AtMessage, MapsMessage};

use parts::Entry;

// The same entry with what a call makes of its message. Where it has none, the call is not made.
pub(super) fn map_message<M, N, F: FnOnce(M) -> N>(entry: Entry<M>, change: F) -> Entry<N>
    requires { AtMessage (F.pre change) entry }
    ensures { MapsMessage (F.post change) entry result }
{
    match entry {
        Entry::Delivered(number, message) => Entry::Delivered(number, change(message)),
        Entry::Missing(first, last) => Entry::Missing(first, last),
        Entry::MadeUp(number, message) => Entry::MadeUp(number, change(message)),
        Entry::WrittenOff(first, last) => Entry::WrittenOff(first, last),
        Entry::Closed(number) => Entry::Closed(number),
    }
}
