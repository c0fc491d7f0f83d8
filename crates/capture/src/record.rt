// A capture and its records, as parts of its bytes.

/// A capture with a sound header.
#[derive(Clone, Copy)]
pub struct Capture<'a> {
    pub channel: u16,
    /// The first number to expect.
    pub start: u64,
    /// The bytes of the records.
    pub records: &'a [u8],
}

/// A record of a capture.
#[derive(Clone, Copy)]
pub enum Record<'a> {
    /// The receiver was sent this.
    Datagram(&'a [u8]),
    /// The receiver was told to expect this number next.
    Judge(u64),
}

/// The bytes of records begin with no record.
#[derive(Clone, Copy, Debug)]
pub struct Malformed;
