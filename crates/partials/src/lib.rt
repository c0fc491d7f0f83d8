// Packets in reassembly: their fragments come in any order, and are joined over lent memory.
#![tactic(auto)]

pub mod head;
pub mod reassembly;
mod table;

pub use head::{Joined, PartialHead};
pub use reassembly::{Partials, partials_fit};
