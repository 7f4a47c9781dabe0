//! The lines of records, for people: each with the offset of its first byte, and with its time where a map tells it.
//!
//! The times are those that a recorder writes into a text beside the trace. Each line of such a map names a record and
//! its time, as in `0 3 1250 ns`: the number of the log that the record stands in, where the logs of the ports come
//! before those of the banks, the place of the record in that log, from 0 on, and behind one blank each the time, which
//! is any text up to the end of the line. Numbers are decimal. A line that is empty or begins with `#` tells nothing.
//! `specs/Stamp` says what a line tells, and `specs/Map` what the lines tell together.
//!
//! A place is a record's number in the trace, from 0. `specs/Marks` says what stands beside a record's line, and
//! `specs/Lines` each line exactly. A record is told as `text_print` does.
#![tactic(auto)]

mod fault;
mod line;
mod listing;
mod mark;
mod number;
mod times;

pub use fault::{MapCause, MapFault};
pub use lf_rules::NoMemory;
pub use listing::{Listing, RecordLine, RecordLines};
pub use mark::{Mark, Marks, marks_of};
pub use times::Times;
