// The parts that come with Soccerpine.
#![tactic(auto)]

pub mod token;
pub mod untokened;

pub use token::TokenCoder;
pub use untokened::Untokened;
