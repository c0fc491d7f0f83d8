// The shelves that come with Soccerpine: packets in lent memory, by their first numbers.
#![tactic(auto)]

mod area;
mod heaping;
mod held;
mod ordered;
mod rack;
pub mod shelf;

pub use held::{Held, shelf_fits};
pub use shelf::{HeapShelf, LentShelf, OrderedShelf};
