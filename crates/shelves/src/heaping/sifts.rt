// How rows move for one that is put into the heap or taken out of it.
ghost use Rattle.std.specs.Prelude.{◌≡◌, ◌+◌, ◌-◌, ◌/◌, ◌<◌, ◌≤◌, true, ◌∷◌, length, take, drop, slice_index_or};
ghost use Rattle.std.specs.List.Sorted.{IsPermutation};
ghost use Rattle.shelves.specs.Sifting.{number_at, heaped, Lower, Higher, Near, Least};

use rows::Row;

// Moves a row up until the one above it is not larger. The place goes by halves, so no iterator counts it.
fn sift_up<P: Copy>(rows: &mut [Row<P>], start: usize)
    requires inside { start < length rows.old }
    requires lower { Lower (number_at rows.old) (length rows.old) start }
    ensures shuffled { IsPermutation rows.old rows.new }
    ensures heap { heaped rows.new ≡ true }
{
    let mut at = start;
    'up: while at > 0 {
        let above = (at - 1) / 2;
        if rows[above].number <= rows[at].number {
            return;
        }
        rows.swap(above, at);
        at = above;
    }
}

// Of the rows right below a place, where the smaller stands.
fn smaller_below<P: Copy>(rows: &[Row<P>], at: usize) -> usize
    requires { at < length rows.now / 2 }
    ensures after { at < result }
    ensures least { Least (number_at rows.now) (length rows.now) at result }
{
    let left = 2 * at + 1;
    let right = left + 1;
    if right < rows.len() && rows[right].number < rows[left].number {
        right
    } else {
        left
    }
}

// Moves a row down until those below it are not smaller, by a place as in `sift_up`.
fn sift_down<P: Copy>(rows: &mut [Row<P>], start: usize)
    requires { Higher (number_at rows.old) (length rows.old) start }
    ensures shuffled { IsPermutation rows.old rows.new }
    ensures heap { heaped rows.new ≡ true }
{
    let mut at = start;
    'down: while at < rows.len() / 2 {
        let below = smaller_below(rows, at);
        if rows[at].number <= rows[below].number {
            return;
        }
        rows.swap(at, below);
        at = below;
    }
}

// Moves a row, which may be any, to where it belongs; behind the last there is none to move.
fn settle<P: Copy>(rows: &mut [Row<P>], at: usize)
    requires { Near (number_at rows.old) (length rows.old) at }
    ensures shuffled { IsPermutation rows.old rows.new }
    ensures heap { heaped rows.new ≡ true }
{
    if at > 0 && at < rows.len() && rows[at].number < rows[(at - 1) / 2].number {
        sift_up(rows, at);
    } else {
        sift_down(rows, at);
    }
}

// Adds a row to the heap of the first `len` rows.
pub(super) fn push_row<P: Copy>(rows: &mut [Row<P>], len: usize, row: Row<P>)
    requires free { len < length rows.old }
    requires heap { heaped (take len rows.old) ≡ true }
    ensures shuffled { IsPermutation (row ∷ take len rows.old) (take (len + 1) rows.new) }
    ensures heap { heaped (take (len + 1) rows.new) ≡ true }
    ensures spares { drop (len + 1) rows.new ≡ drop (len + 1) rows.old }
{
    rows[len] = row;
    sift_up(&mut rows[..=len], len);
}

// Takes a row out of the heap of the first `len` rows; it becomes the first one behind them.
pub(super) fn pull_row<P: Copy>(rows: &mut [Row<P>], len: usize, at: usize) -> Row<P>
    requires inside { at < len }
    requires fits { len ≤ length rows.old }
    requires heap { heaped (take len rows.old) ≡ true }
    ensures row { result ≡ slice_index_or rows.old at result }
    ensures shuffled { IsPermutation (take len rows.old) (result ∷ take (len - 1) rows.new) }
    ensures heap { heaped (take (len - 1) rows.new) ≡ true }
    ensures spares { drop (len - 1) rows.new ≡ result ∷ drop len rows.old }
{
    let last = len - 1;
    let row = rows[at];
    rows.swap(at, last);
    settle(&mut rows[..last], at);
    row
}
