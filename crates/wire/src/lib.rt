// Datagrams: reading one, finding its coded body, and splitting a plain body into messages.
#![tactic(auto)]

pub mod body;
pub mod datagram;
mod fields;
pub mod flag;
mod head;
pub mod messages;
pub mod reading;
pub mod splitting;

pub use body::{check_body, coded_body};
pub use datagram::{Fragment, Packet, Reading};
pub use flag::Flag;
pub use messages::Messages;
pub use reading::read;
pub use splitting::split;
