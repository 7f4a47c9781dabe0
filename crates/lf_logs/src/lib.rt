//! The logs of a trace: each log's records in its own order, the rules of a port's log, and the
//! numbers that give each bank's order.
#![tactic(auto)]

mod banks;
mod early;
mod incomplete;
mod laws;
mod log_records;
mod logs;
mod order;
mod packed_logs;
mod port;
mod port_look;
mod port_step;
mod reorder;
mod skeleton;

pub use banks::bank_records;
pub use incomplete::Incomplete;
pub use laws::mixtures_have_their_logs;
pub use lf_rules::{NoMemory, Outcome, Skeleton};
pub use log_records::LogRecords;
pub use logs::{records, split};
pub use order::{NumberFault, Place, bank_order, places_of_bank, record_at};
pub use packed_logs::PackedLogs;
pub use port::port_replay;
pub use port_step::PortStep;
pub use reorder::Reorder;
pub use skeleton::skeletons;
