//! What a bank knows of its blocks, in one cell for each.
//!
//! A block has a cell from the first time on that the bank keeps something of it: what level one has of it, the bytes
//! that stores wrote, its dirty mask in level two, and its bytes in flat memory. So it is looked up once an event.
#![tactic(auto)]

mod bytes;
mod cell;
mod cells;
mod index;
mod known;
mod padded;
mod table;

pub use cells::Cells;
pub use known::{Fetch, First, Second};
