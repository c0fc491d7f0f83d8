// Captures: what a receiver was sent and told, in a file.
#![tactic(auto)]

pub mod inspecting;
mod lines;
pub mod reader;
pub mod record;

pub use inspecting::{INSPECT_ROOM, inspect};
pub use reader::{next_record, open_capture};
pub use record::{Capture, Malformed, Record};
