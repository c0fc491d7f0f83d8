// The numbers of an account.

/// What an account counts.
#[derive(Clone, Copy)]
pub struct Numbers {
    pub channel: u16,
    /// The first number that the account is for.
    pub start: u64,
    /// The next number that it expects.
    pub next: u64,
    /// The highest number that it has heard of.
    pub heard: u64,
    /// The last number of the stream, where it is known.
    pub end: Option<u64>,
}
