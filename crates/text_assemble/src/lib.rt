//! Assembles a trace from its text.
//!
//! `assemble` reads the lines that `text_dump` prints of a trace, one after another, and writes the bytes of
//! each. A text may leave out the version, the numbers of records and the end. What was printed of a trace
//! gives the bytes of that trace again, and what is written is a trace.
//! `specs/Assembly` says what a text gives, and which fault another text has at which line. `Refusal` prints
//! the fault with its line.
#![tactic(auto)]

mod assembling;
mod draft;
mod due;
mod fault;
mod refusal;
mod spelling;

pub use assembling::assemble;
pub use fault::{AssembleCause, AssembleFault, Part};
pub use refusal::Refusal;
