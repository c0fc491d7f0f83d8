// What every other crate of Soccerpine rests on: refusals, limits, byte areas and the checksum.
#![tactic(auto)]

pub mod adler;
pub mod area;
pub mod limits;
pub mod refusal;

pub use adler::adler32;
pub use area::{write_at, zero, zero_from};
pub use refusal::{Cause, Layer, Refusal, Returned, Rule};
