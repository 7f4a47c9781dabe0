//! The verdict of a trace. A trace and a shape go in; out comes a yes, a no with the fault and its place, or a
//! refusal. That is the outcome. A verdict also tells one order of all events after a yes.
//!
//! A yes means that some interleaving of the trace's port and bank logs, each in its own order, is a
//! run of the hierarchy: `IsLegal` of `specs/` says it in full. Which outcome a trace has is said by
//! `IsOutcomeOf`, and depends neither on how the bytes are cut into pieces nor on how the logs are
//! mixed in them. Which verdict it has is said by `IsVerdictOf`.
#![tactic(auto)]

mod answer;
mod broken_part;
mod early_end;
mod fed;
mod header;
mod laws;
mod order;
mod pool;
mod session;
mod stop;
mod text;

pub use answer::{Fault, HeaderField, Outcome, Refusal, Verdict};
pub use fed::Fed;
pub use laws::{
    collected_logs_are_in_order, mixtures_are_alike, mixtures_are_alike_for, no_has_no_run,
    one_is_earliest, one_is_named, other_headers_are_final, part_faults_are_final,
    verdicts_are_one, verdicts_for_are_one, workers_are_alike, yes_is_legal,
};
pub use lf_logs::Incomplete;
pub use lf_pool::{Gate, NoGate, is_worker_count};
pub use lf_rules::Ring;
pub use pool::{check, check_shape};
pub use session::{Asked, Broken, Conclusion, ParallelSession, PartFault, Session, Upon};
