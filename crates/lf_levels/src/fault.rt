//! Why a table of lines refuses.

/// Why a fill or an eviction is refused. The table is then as it was.
#[derive(Clone, Copy, Debug, PartialEq, Eq)]
pub enum LineFault {
    /// Each way of the block's set has a line.
    SetFull,
    /// No line is on the block.
    EvictAbsent,
    /// The mask is not the dirty mask of the line.
    EvictMask,
}
