// Putting the messages of a packet into an outlet.
ghost use Rattle.std.specs.Prelude.{◌≡◌, ◌+◌, ◌≤◌, length, if◌then◌else◌, Ok, Err};
ghost use Rattle.base.specs.Limits.{max_number};
ghost use Rattle.base.specs.declared.refusal.Cause.TheVariants.{OutletFull};
ghost use Rattle.wire.specs.Messages.{messages_in};
ghost use Rattle.account.specs.Delivering.{entries_from, all_fit, with_all};

use base::{Cause, Refusal};
use parts::{Entry, Outlet};
use wire::Messages;

// Puts an entry for each message, numbered from `first` on, which is the next expected number; none where the outlet has
// no room for all.
pub(crate) fn deliver<O: Outlet>(
    outlet: &mut O,
    first: u64,
    messages: Messages<'_>,
) -> Result<(), Refusal>
    requires { first + length messages.lengths.now ≤ max_number + 1 }
    ensures answer { result ≡ (
        if all_fit (O.listing outlet.old) (entries_from first (messages_in messages.entry))
        then Ok tt
        else Err (record { cause = OutletFull; value = first })
        ) }
    ensures after { O.listing outlet.new ≡ (
        if all_fit (O.listing outlet.old) (entries_from first (messages_in messages.entry))
        then with_all (O.listing outlet.old) (entries_from first (messages_in messages.entry))
        else O.listing outlet.old
        ) }
{
    if outlet.entries_left() < messages.lengths.len()
        || outlet.bytes_left() < messages.bytes.len()
    {
        return Err(Refusal::new(Cause::OutletFull, first));
    }
    let mut rest = messages.bytes;
    'messages: for (i, length) in messages.lengths.iter().enumerate() {
        let (message, others) = rest.split_at(u32::from_be_bytes(*length) as usize);
        outlet
            .put(Entry::delivered(first + i as u64, message))
            .unwrap();
        rest = others;
    }
    Ok(())
}
