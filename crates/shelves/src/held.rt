// A held row, and the memory that a shelf is lent.
ghost use Rattle.std.specs.Prelude.{◌≡◌};
ghost use Rattle.shelves.specs.Racks.{sizes_for};

use parts::Sizes;

mod looking;

pub(crate) use looking::number_places;
pub use looking::shelf_fits;

/// What is kept under a packet's first number: how many messages it has, how many bytes its body has, and in which place these
/// lie.
#[derive(Clone, Copy)]
pub struct Held {
    pub count: u16,
    pub size: u16,
    pub place: u8,
}

impl From<Held> for Sizes {
    ghost from_gives = { λ held sizes. sizes ≡ sizes_for held };

    fn from(held: Held) -> Sizes {
        Sizes {
            count: held.count,
            length: usize::from(held.size),
        }
    }
}
