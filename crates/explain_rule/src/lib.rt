//! Why a trace is not legal, for people: the record that breaks a rule, what the rule asks, what it asks that
//! the record carries, what the bank has of the blocks that the record names, the records that the state of the rule
//! comes from, and the records before it that matter.
//!
//! `explain` finds the records, and `Explained` is their text. A record is told as `explain_lines` does.
//! `specs/Explanation` says which records, and `specs/Text` each line exactly.
#![tactic(auto)]

mod carried;
mod explained;
mod explanation;
mod field;
mod found;
mod free;
mod limit;
mod origins;
mod sentence;
mod state;
mod taken;
mod wanted;

pub use carried::{all_beyond, first_difference, is_among, masks_of, register_of, size_of};
pub use explained::Explained;
pub use explanation::{Breach, Explanation, explain};
pub use field::Field;
pub use limit::Limit;
pub use sentence::sentence_at;
pub use taken::Taken;
