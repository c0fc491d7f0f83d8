// The lengths of the pieces of a packet.
ghost use Rattle.std.specs.Prelude.{◌≡◌, ◌<◌, ◌≤◌, length, nat_lt, slice_index, slice_set, sum};
ghost use Rattle.base.specs.Limits.{body_room, max_fragments};
ghost use Rattle.partials.specs.Places.{all_positive};

use super::row::PIECES;

pub(crate) fn sum(lengths: &[u16]) -> usize
    requires { length lengths.now ≤ max_fragments }
    ensures { result ≡ sum lengths.now }
{
    lengths.iter().map(|&n| usize::from(n)).sum()
}

// Whether piece `k` has come.
pub(crate) fn has_piece(lengths: &[u16], k: usize) -> bool
    requires { k < length lengths.now }
    ensures { result ≡ nat_lt 0 (slice_index lengths.now k) }
{
    lengths[k] > 0
}

// Whether no piece is missing.
pub(crate) fn all_there(lengths: &[u16]) -> bool
    ensures { result ≡ all_positive lengths.now }
{
    lengths.iter().all(|&n| n != 0)
}

// The lengths with piece `k` of `n` bytes.
pub(crate) fn with_length(mut lengths: [u16; PIECES], k: usize, n: usize) -> [u16; PIECES]
    requires within { k < max_fragments }
    requires short { n ≤ body_room }
    ensures { result ≡ slice_set lengths k n }
{
    // `as`, since a length of at most 4,096 fits: `try_from` would bring an error that cannot come.
    lengths[k] = n as u16;
    lengths
}
