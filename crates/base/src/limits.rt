// The limits of the protocol. `specs/Limits.antt` has the same values for the contracts.

/// The largest number a message can have.
pub const MAX_NUMBER: u64 = 4_611_686_018_427_387_903;
/// The bytes of the shortest datagram.
pub const MIN_DATAGRAM: usize = 24;
/// The bytes of the longest datagram, and of the packer's buffer.
pub const MAX_DATAGRAM: usize = 1_472;
/// The bytes of a trailer.
pub const TRAILER: usize = 4;
/// The most messages of a packet.
pub const MAX_MESSAGES: u16 = 819;
/// The most bytes of a message.
pub const MAX_MESSAGE: usize = 4_092;
/// The most fragments of a packet.
pub const MAX_FRAGMENTS: u16 = 16;
/// The bytes of a working buffer and of a place for a body.
pub const BODY_ROOM: usize = 4_096;
/// The most bytes of a token.
pub const MAX_TOKEN: usize = 64;
/// The most bytes of a capture.
pub const MAX_CAPTURE: usize = 65_536;
/// The most places of a shelf.
pub const MAX_PLACES: usize = 64;
/// The most entries of an outlet.
pub const MAX_ENTRIES: usize = 65_535;
/// The most rows of a gap list.
pub const MAX_GAPS: usize = 32;
