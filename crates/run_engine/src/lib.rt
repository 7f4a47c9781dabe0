//! The engine of the scoreboard: a trace comes from a reader, is judged while it is read, and what is asked of it goes
//! to a writer.
//!
//! `run_on` and `run_for` are the one run for all that can be asked (`Ask`): the first for a shape, the other for the
//! text of a configuration. `judge` is the part of it that reads and judges, for callers that write nothing. What can
//! be asked are `Check`, `Complete`, `Statistics` and `Watch`, and others in the crates above; `run`, `run_shape`,
//! `run_check` and so on are the commands of the program.
//!
//! Both streams are `Counted`, so that
//! the contracts can say how often they were called, when a call failed, and which bytes the reads
//! answered and the writes took. `Line` is each line that a program over the engine prints.
#![tactic(auto)]

mod ask;
mod asks;
mod commands;
mod fault;
mod judging;
mod laws;
mod line;
mod running;
mod telling;

pub use ask::{Ask, Needs};
pub use asks::{Check, Complete, Statistics, Watch};
pub use commands::{run, run_check, run_complete, run_shape, run_stats, run_watch};
pub use fault::RunFault;
pub use judging::{Judged, judge};
pub use laws::watches_are_one;
pub use line::{InputFault, Line, no_memory_line, not_read_line, outcome_line};
pub use run_stream::Counted;
pub use running::{run_for, run_on, shape_for};
