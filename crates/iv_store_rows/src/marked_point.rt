//! What is kept of a marked database.

/// How many changes were noted at a mark, which is how many are counted, and the next number.
#[derive(Clone, Copy, Debug, PartialEq, Eq)]
pub struct MarkedPoint {
    pub noted: u64,
    pub next: u64,
}
