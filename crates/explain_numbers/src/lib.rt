//! Why the numbers of a trace give no order, for people: the records that have one number, the records next to a
//! number that none has, or the records that wait for one another.
//!
//! A `Reason` names records by their places in the trace, from 0. `specs/Reason` says which records, and `specs/Text`
//! each line exactly. A record is told as `explain_lines` does.
#![tactic(auto)]

mod cycle;
mod laws;
mod numbered;
mod reason;
mod text;

pub use cycle::Wait;
pub use laws::waits_are_chains;
pub use lf_rules::NoMemory;
pub use reason::Reason;
pub use text::Reasoned;
