// What an ordered list holds.

/// A number, and what is kept under it.
#[derive(Clone, Copy)]
pub struct Row<P> {
    pub number: u64,
    pub part: P,
}
