//! The lines of one bank at one level of the cache: which blocks are there, each with what is dirty of
//! its line, a mask of each first-level block that has a bit for each byte that was written since the
//! line came. The lines of level two are on second-level blocks.
//!
//! A `Lines` is seen as its numbers of sets, ways, banks and first-level blocks in one of level two, and
//! a map from block to what is dirty, by the words of `lf_rules`. No set ever has more lines than ways, and each
//! line of level two has a mask for every first-level block of its block.
//! Only `new` takes memory: it makes all ways, a row of them for each set.
#![tactic(auto)]

mod dirty_ways;
mod divisor;
mod fault;
mod level;
mod lines;
mod lines_one;
mod lines_two;
mod sets;
mod way_key;
mod ways;

pub use fault::LineFault;
pub use level::{Level, One, Two};
pub use lf_rules::{NoMemory, same_masks};
pub use lines::Lines;
pub use sets::Sets;
