//! The recorder: traces collected from running threads.
//!
//! A desk has one word for each bank and gives out one seat for each log. A thread that holds a seat
//! records events in its log: each event but a fence draws the next number of its bank by one
//! `fetch_add`, a fence draws none, and nobody waits. Where the seats are handed back, the logs have a
//! common order: one list of all events in which each log keeps its own order and each bank's numbers
//! are 0, 1, 2, ..
#![tactic(auto)]

mod desk;
mod desk_seat;
mod fault;
mod rule;

pub use desk::{Desk, LogSeat};
pub use fault::{CloseFault, OpenFault, RecordFault};
pub use lf_rules::NoMemory;
