//! How many blocks and lines a bank has of each kind.

/// How many blocks go between the levels of a bank, and how many of its lines are dirty.
#[derive(Clone, Copy, Debug, PartialEq, Eq)]
pub struct Counts {
    /// Blocks that level one asks for, and that level two has not answered.
    pub asked: u64,
    /// Blocks that level two has supplied, and that level one has not filled in.
    pub supplied: u64,
    /// Dirty lines of level one.
    pub dirty1: u64,
    /// Dirty lines of level two.
    pub dirty2: u64,
}
