// Composing a capture from a text.
#![tactic(auto)]

mod data;
mod fields;
mod kinds;
mod packed;
mod records;
mod text;

pub use text::{BadLine, compose};
