//! Reads a line of the text that `text_print` prints.
//!
//! What was printed of a header, of a memory record, of an event record or of the end is read as that
//! again, also where a comment stands behind it. Letters of hexadecimal digits may be small or large, and
//! between words any number of spaces and tabs may stand. A header may leave out its version and a
//! record its number: `Defaults` says what is meant then. `specs/Lines` says how a line is read, and which fault
//! any other text has. Nothing is allocated.
#![tactic(auto)]

mod defaults;
mod event;
mod fault;
mod field;
mod line;
mod scan;
mod word;

pub use defaults::Defaults;
pub use fault::{Expected, Name, TextFault};
pub use line::{Line, least_version, read_line};
