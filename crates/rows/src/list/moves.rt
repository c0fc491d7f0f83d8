// How rows move in lent memory.
ghost use Rattle.std.specs.Prelude.{◌≡◌, ◌+◌, ◌-◌, ◌<◌, ◌≤◌, ◌∷◌, length, take, drop, slice_index_or};
ghost use Rattle.std.specs.List.{insert, remove};

// Puts a row at a place; the later ones move up by one.
pub(super) fn open_rows<R: Copy>(rows: &mut [R], len: usize, i: usize, row: R)
    requires inside { i ≤ len }
    requires free { len < length rows.old }
    ensures after { take (len + 1) rows.new ≡ insert (take len rows.old) i row }
    ensures spares { drop (len + 1) rows.new ≡ drop (len + 1) rows.old }
{
    rows[i..=len].rotate_right(1);
    rows[i] = row;
}

// Takes out the row at a place; the later ones move down by one, and it comes to stand behind them.
pub(super) fn close_rows<R: Copy>(rows: &mut [R], len: usize, i: usize)
    requires inside { i < len }
    requires fits { len ≤ length rows.old }
    ensures after { take (len - 1) rows.new ≡ remove (take len rows.old) i }
    ensures spares { (d : R) → drop (len - 1) rows.new ≡ slice_index_or rows.old i d ∷ drop len rows.old }
{
    rows[i..len].rotate_left(1);
}
