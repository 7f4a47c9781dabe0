//! The coverage of a trace: which situations of a lockup-free cache it reached, and how often.
//!
//! A point is a situation in a bank, as a merge at level one, or at a port, as a load of four bytes. `cover`
//! counts each point that the hierarchy can reach; `specs/Points` says what reaches one. A `Coverage` is
//! shown as lines, the points that were not reached first, and `CoverageData` shows it as a file of Verilator.
#![tactic(auto)]

mod banks;
mod counts;
mod coverage;
mod data;
mod pinned;
mod point;
mod ports;
mod reach;
mod reachable;
mod request;
mod sight;
mod standing;
mod supply;
mod tally;
mod text;

pub use coverage::{Coverage, cover};
pub use data::CoverageData;
pub use lf_rules::NoMemory;
pub use point::{BankPoint, Measure, Point, PortPoint};
pub use tally::Tally;
