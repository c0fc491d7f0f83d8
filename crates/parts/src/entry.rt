// The entries of an outlet.

mod shape;

/// What became of a number, or of all numbers from a first to a last. Where it has a message, `M` is what stands for that:
/// the bytes in `Entry<&[u8]>`.
#[derive(Clone, Copy)]
pub enum Entry<M> {
    /// A message was delivered: its number and its bytes.
    Delivered(u64, M),
    /// Messages are missing: the first and the last number.
    Missing(u64, u64),
    /// A missing message was made up: its number and its bytes.
    MadeUp(u64, M),
    /// Missing messages were written off: the first and the last number.
    WrittenOff(u64, u64),
    /// The channel was closed: the stream's last number.
    Closed(u64),
}
