// What the fragments of a packet share, and what a fragment comes to.

mod comparing;
mod piece;

pub(crate) use comparing::Key;
pub(crate) use piece::{FRAGMENT_PLACE, Piece};

/// What the fragments of one packet share. Its sender and its first number tell a packet from others.
#[derive(Clone, Copy)]
pub struct PartialHead {
    pub sender: u8,
    /// The number of the packet's first message.
    pub first: u64,
    /// The number of its messages.
    pub count: u16,
    pub flag: u16,
    /// The number of its fragments.
    pub total: u16,
    /// The checksum of its plain body, where it has one.
    pub checksum: Option<u32>,
}

/// What a fragment came to.
#[derive(Clone, Copy)]
pub enum Joined {
    /// The piece had come already.
    Again,
    /// The packet has the piece now, and others are missing.
    Kept,
    /// No piece is missing. So many bytes at the front of the buffer are the packet's coded body.
    Whole(usize),
}
