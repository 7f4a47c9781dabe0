//! What a bank knows of one block.

use crate::known::First;
use crate::padded::Bytes;

/// What a bank knows of a first-level block.
#[derive(Clone, Copy)]
pub struct Cell {
    /// What level one has of it.
    pub first: First,
    /// The dirty mask of its line in level one, or the bytes that its waiting stores write.
    pub written: u64,
    /// Its dirty mask in the line of level two.
    pub dirty: u64,
    /// Its bytes in flat memory, and zeros behind them.
    pub bytes: Bytes,
}
