//! Prints the text of a trace while it is read.
//!
//! `dump` reads a trace in pieces and writes the line of each record as soon as its bytes are there, so it
//! keeps no more than a piece and its lines. `specs/Lines` says what the text of some bytes is: a line for
//! each part that the format reads from them, with its offset, and then the end or why they are no trace.
//!
//! `dump_chosen` writes those of the lines that a `Choice` takes, by port, bank, block, tag and offset, or
//! the last of them. `specs/Chosen` says which.
#![tactic(auto)]

mod choice;
mod choosing;
mod chosen;
mod dumping;
mod fault;
mod lines;
mod printer;

pub use choice::Choice;
pub use choosing::dump_chosen;
pub use dumping::dump;
pub use fault::DumpFault;
