//! Readers and writers as an engine calls them: each call is counted, a stream is read piece by piece, and
//! bytes are written whole.
//!
//! `Counted` is a reader or a writer whose contracts say how often it was called, when a call failed, and
//! which bytes each call moved. `gather` reads a `Source`, as a `Counted` reader is, into the buffer that
//! `zeros` makes, and feeds what it reads to a `Sink`. `put` writes all of some bytes. An engine over any
//! reader and any writer stands on these and on nothing of the system.
#![tactic(auto)]

mod buffer;
mod counted;
mod gathering;
mod output;
mod pieces;
mod source;

pub use buffer::zeros;
pub use counted::Counted;
pub use gathering::{Sink, Stop, gather};
pub use output::{NotWritten, put};
pub use source::Source;
