//! Statistics of a trace: what each bank's requests met in level one, and how many of each port's
//! requests have no reply.
//!
//! `stats` counts over the logs of a trace. `BankCount` counts the records of a bank while they come in the order of
//! their numbers. Its counts are the statistics of the bank where the trace is whole (`counts_are_statistics`), as one
//! that is legal is (`slice_runs_accept_issued`).
#![tactic(auto)]

mod bank;
mod bank_count;
mod counts;
mod held;
mod issued;
mod laws;
mod port;
mod statistics;
mod text;

pub use bank::held_counts;
pub use bank_count::BankCount;
pub use counts::{BankStats, Stats};
pub use laws::{counts_are_statistics, slice_runs_accept_issued};
pub use lf_rules::NoMemory;
pub use statistics::stats;
