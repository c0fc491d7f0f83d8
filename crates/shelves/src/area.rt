// The bytes that the bodies of held packets lie in, 4,096 for each place.
ghost use Rattle.std.specs.Prelude.{◌≡◌, ◌+◌, ◌*◌, ◌≤◌, length, take};
ghost use Rattle.base.specs.Areas.{written_at};
ghost use Rattle.base.specs.Limits.{body_room};
ghost use Rattle.parts.specs.Holdings.{padded};
ghost use Rattle.shelves.specs.Racks.{bytes_at};

use base::limits::BODY_ROOM;
use base::{write_at, zero_from};

// Writes a body to the front of a place.
pub(crate) fn store(bytes: &mut [u8], place: usize, body: &[u8])
    requires short { length body.now ≤ body_room }
    requires inside { body_room * (place + 1) ≤ length bytes.old }
    ensures { bytes.new ≡ written_at bytes.old (body_room * place) body.now }
{
    write_at(bytes, BODY_ROOM * place, body).unwrap();
}

// Copies the front of a place, with zeros behind it.
pub(crate) fn load(bytes: &[u8], place: usize, size: usize, into: &mut [u8])
    requires whole { length into.old ≡ body_room }
    requires inside { body_room * (place + 1) ≤ length bytes.now }
    requires short { size ≤ body_room }
    ensures { into.new ≡ padded (take size (bytes_at bytes.now place)) }
{
    let at = BODY_ROOM * place;
    write_at(into, 0, &bytes[at..at + size]).unwrap();
    zero_from(into, size);
}
