// A gap row.

/// Whether someone has claimed a gap.
#[derive(Clone, Copy)]
pub enum GapState {
    Open,
    Claimed,
}

/// What is kept under the last number of a gap: the first number that is not settled, and whether the gap is claimed.
#[derive(Clone, Copy)]
pub struct Gap {
    pub at: u64,
    pub state: GapState,
}
