// The sending half of the wire: packing a datagram, and what ties packing to reading.
#![tactic(auto)]

mod accepted;
pub mod packer;
pub mod packing;
pub mod theorems;
mod writer;

pub use packer::pack;
pub use packing::Packing;
