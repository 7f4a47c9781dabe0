//! The text of a trace, for people: a line for the header, for each memory record, for each event
//! record and for the end.
//!
//! A line is a word and then fields, as in `load port=0 bank=0 number=0 tag=0 size=8 address=0x0`. The
//! words and the names of the fields are those of the format in small letters. Numbers are decimal,
//! addresses and masks are hexadecimal behind `0x`, and bytes are two hexadecimal digits each, in the
//! order of the trace. `specs/Text` says each line exactly.
#![tactic(auto)]

mod data;
mod line;
mod record;

pub use data::Data;
pub use line::{PlacedLine, TextLine};
pub use record::{MaskFields, data_of, word_of};
