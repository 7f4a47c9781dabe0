//! What does the jobs.

ghost use Rattle.std.specs.Prelude.{◌<◌};
ghost use Rattle.lf_pool.specs.Job.{AreJobs, count_of};

use crate::gate::Gate;
use crate::job::{Jobs, job};
use lf_rules::Outcome;
use std::alloc::Global;

/// What a worker does a job by.
pub trait Replays {
    ghost use Rattle.std.specs.Prelude.{ℕ, ◌<◌};
    ghost use Rattle.lf_rules.specs.declared.outcome.Outcome.{Outcome};
    ghost use Rattle.lf_pool.specs.declared.job.Jobs.{Jobs};
    ghost use Rattle.lf_pool.specs.Job.{AreJobs, count_of};

    // may the replay of this job give this outcome?
    ghost may_give: { Jobs → ℕ → Outcome → Type 0 };

    /// Does the job of this number.
    fn replay(&self, alloc: Global, jobs: &Jobs, number: u32) -> Outcome
        requires ready { AreJobs jobs.now }
        requires number { number < count_of jobs.now }
        ensures { may_give jobs.now number result };
}

/// The replays of `lf_logs` and `lf_replay`, each behind the gate.
#[derive_where(Clone, Copy)]
pub(crate) struct Gated<'a, G> {
    pub gate: &'a G,
}

impl<G: Gate> Replays for Gated<'_, G> {
    ghost use Rattle.lf_pool.specs.Job.{IsJobOutcome};

    ghost may_give = { IsJobOutcome };

    fn replay(&self, alloc: Global, jobs: &Jobs, number: u32) -> Outcome {
        self.gate.enter(number);
        job(alloc, jobs, number)
    }
}
