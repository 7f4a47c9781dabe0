//! Logs that wait for one another.

use arrayvec::ArrayVec;

/// Bank and number of each record of a log, in the order of the log. A fence's are `NO_BANK` and 0.
pub type Skeleton = Vec<(u8, u32)>;

/// A log, and the place in it of the record that waits.
#[derive(Clone, Copy, Debug, Default, PartialEq, Eq)]
pub struct Knot {
    /// The log.
    pub log: u8,
    /// The record's place in it, from 0.
    pub at: u32,
}

/// Logs that wait for one another, each for the next, and the last for the first.
pub type Ring = ArrayVec<Knot, 32>;
