// Code over any shelf and any outlet.
ghost use Rattle.std.specs.Prelude.{◌≡◌};
ghost use Rattle.combinations.specs.Passing.{passed};

use base::Refusal;
use parts::{Entry, Outlet, Shelf};

/// Passes the held packet with the smallest number on to an outlet: its body as one message under its first number. The body
/// goes through a buffer of 4,096 bytes.
pub fn pass_lowest<S: Shelf, O: Outlet>(
    shelf: &mut S,
    outlet: &mut O,
    buffer: &mut [u8],
) -> Result<Option<u64>, Refusal>
    ensures answer { result ≡ (passed (S.Shelf.holding shelf.old) (O.Outlet.listing outlet.old) buffer.old).answer }
    ensures shelf { S.Shelf.holding shelf.new ≡ (passed (S.Shelf.holding shelf.old) (O.Outlet.listing outlet.old) buffer.old).holding }
    ensures outlet { O.Outlet.listing outlet.new ≡ (passed (S.Shelf.holding shelf.old) (O.Outlet.listing outlet.old) buffer.old).listing }
    ensures buffer { buffer.new ≡ (passed (S.Shelf.holding shelf.old) (O.Outlet.listing outlet.old) buffer.old).buffer }
{
    let Some(first) = shelf.lowest() else {
        return Ok(None);
    };
    let sizes = shelf.read(first, buffer)?.unwrap();
    outlet.put(Entry::delivered(first, &buffer[..sizes.length]))?;
    let _ = shelf.take(first);
    Ok(Some(first))
}
