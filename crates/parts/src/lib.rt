// What a channel is put together from: the traits of its parts.
#![tactic(auto)]

pub mod coder;
pub mod entry;
pub mod outlet;
pub mod shelf;

pub use coder::{OpeningCoder, SealingCoder};
pub use entry::Entry;
pub use outlet::Outlet;
pub use shelf::{Shelf, Sizes};
