// Rows by what tells their packet from others.
ghost use Rattle.std.specs.Prelude.{◌≡◌};
ghost use Rattle.partials.specs.Places.{index_of};

use super::Row;
use crate::head::Key;

pub(crate) fn index_of(rows: &[Row], key: Key) -> Option<usize>
    ensures { result ≡ index_of key.sender key.first rows.now }
{
    rows.iter().position(|row| row.head.key() == key)
}
