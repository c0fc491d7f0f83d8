// Packets in reassembly as rows, with their bytes in lent memory.
ghost use Rattle.std.specs.Prelude.{◌≡◌, ◌*◌, ◌≤◌, length, count_by};
ghost use Rattle.base.specs.Limits.{body_room};
ghost use Rattle.partials.specs.Joining.{max_partials};
ghost use Rattle.partials.specs.Places.{misfit, OwnPlaces};

mod ending;
mod finding;
mod joining;
mod lengths;
pub(crate) mod row;

pub(crate) use row::Row;

// The most packets in reassembly at a time.
pub(crate) const MAX_PARTIALS: usize = 4;

// The lent memory, four places, and a row for each of them. The first `len` rows are in use, the one begun first at the head.
#[derive(Drop)]
pub(crate) struct Table<'a> {
    pub(crate) memory: &'a mut [u8],
    // The spare rows keep the numbers of the places that are free.
    pub(crate) rows: [Row; MAX_PARTIALS],
    pub(crate) len: usize,
    ghost sized: { length memory.now ≡ max_partials * body_room },
    ghost four: { length rows ≡ max_partials },
    ghost few: { len ≤ max_partials },
    ghost fitting: { count_by misfit rows ≡ 0 },
    ghost own: { OwnPlaces rows },
}
