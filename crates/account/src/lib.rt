// The account of a channel, and its calls.
#![tactic(auto)]

pub mod account;
pub mod answer;
mod arrival;
mod body;
mod coding;
mod delivering;
pub mod gaps;
mod joining;

pub use account::{Account, Numbers};
pub use answer::Answer;
pub use gaps::{Gap, GapList, GapState, gaps_fit};
