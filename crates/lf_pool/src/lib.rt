//! The replays of all ports and banks of a trace, done by 1 to 16 workers.
//!
//! Each worker claims the number of a job by one `fetch_add` on a word that they share, passes the
//! gate and does that job, until no number is left. What holds of the word and of what each worker
//! claimed is a rule (`specs/Rule.antt`): the numbers below the word are claimed, each once. So each job
//! is done, and its outcome is that of its own replay, whichever worker did it: so `NoMemory` is that of
//! the job that it is told of.
#![tactic(auto)]

mod gate;
mod job;
mod pool;
mod replays;
mod rule;
mod worker;

pub use gate::{Gate, NoGate};
pub use job::Jobs;
pub use lf_rules::Outcome;
pub use pool::{PoolFault, is_worker_count, run_jobs, run_jobs_by};
pub use replays::Replays;
