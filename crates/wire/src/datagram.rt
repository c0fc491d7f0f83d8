// What a datagram is read as.
use crate::flag::Flag;

/// The protocol's first byte, its version and its market, the same in every datagram.
pub const PROTOCOL: u8 = 0xFF;

pub const VERSION: u8 = 1;

pub const MARKET: u16 = 1;

/// The number of a fragment and the fragments of its packet.
#[derive(Clone, Copy)]
pub struct Fragment {
    pub total: u16,
    pub number: u16,
}

/// A data datagram: a whole packet, or a fragment of one.
#[derive(Clone, Copy)]
pub struct Packet {
    pub header_size: u8,
    pub sender: u8,
    /// The number of the packet's first message.
    pub first: u64,
    /// The number of its messages.
    pub count: u16,
    pub flag: Flag,
    pub fragment: Option<Fragment>,
    /// The checksum of the packet's plain body, where it has one.
    pub checksum: Option<u32>,
    /// Where the coded body starts in the datagram.
    pub start: usize,
    /// Where it ends.
    pub end: usize,
}

/// A datagram that was read.
#[derive(Clone, Copy)]
pub enum Reading {
    /// A heartbeat of the multicast group.
    Heartbeat { sender: u8 },
    /// A heartbeat of the channel, with the last number that was sent.
    StreamHeartbeat { sender: u8, last: u64 },
    /// The end of the channel's numbers, with the last of them.
    StreamEnd { sender: u8, last: u64 },
    Data(Packet),
}
