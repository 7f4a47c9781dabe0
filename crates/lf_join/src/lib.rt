//! The join of all logs: one order of all their records, which keeps each log's order and each
//! bank's numbers, or a ring of logs that wait for one another and so show that there is none.
#![tactic(auto)]

mod check;
mod heads;
mod laws;
mod log_set;
mod order;
mod progress;
mod roster;

pub use check::check_cycle;
pub use laws::{entries_stay, joins_are_one};
pub use lf_rules::{Knot, Ring, Skeleton};
pub use order::{JoinFault, join};
pub use progress::Progress;
