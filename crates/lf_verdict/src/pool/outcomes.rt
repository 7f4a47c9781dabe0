//! What the outcomes of all ports and banks say.

ghost use Rattle.std.specs.Prelude.{length, IfErr, OnOk};
ghost use Rattle.std.specs.Bool.{OnFalse};
ghost use Rattle.lf_rules.specs.Address.{flat_memory};
ghost use Rattle.lf_rules.specs.Lists.{lists_of};
ghost use Rattle.lf_pool.specs.Job.{AreJobs, AreJobOutcomes};
ghost use Rattle.lf_verdict.specs.Parts.{PartsRun};
ghost use Rattle.lf_verdict.specs.inner.Ending.{IsEnding, AreWholeBelow};
ghost use Rattle.lf_verdict.specs.inner.Jobs.{NoneRanOut};

use crate::answer::Fault;
use crate::broken_part::{BrokenPart, first_broken};
use crate::early_end::Ending;
use lf_pool::Jobs;
use lf_rules::Outcome;

/// Whether the replay of a port or a bank ran out of memory.
fn ran_out(all: &[Outcome]) -> bool
    ensures { OnFalse result (NoneRanOut all.now (length all.now)) }
{
    for outcome in all {
        if let Outcome::NoMemory = outcome {
            return true;
        }
    }
    false
}

/// Names what the outcomes of all jobs say: out of memory first, then the lowest port that is broken,
/// then the lowest bank.
pub fn judge_outcomes(jobs: &Jobs, outcomes: &[Outcome]) -> Result<(), Ending>
    requires ready { AreJobs jobs.now }
    requires whole { AreWholeBelow (lists_of jobs.now.logs) jobs.now.shape.banks }
    requires outcomes { AreJobOutcomes jobs.now outcomes.now }
    ensures run { OnOk result (PartsRun jobs.now.shape (flat_memory jobs.now.memory.items) (lists_of jobs.now.logs)) }
    ensures fault { IfErr result (IsEnding jobs.now.shape (flat_memory jobs.now.memory.items)
        (lists_of jobs.now.logs)) }
{
    if ran_out(outcomes) {
        return Err(Ending::NoMemory);
    }
    let (of_ports, of_banks) = outcomes.split_at(jobs.shape.ports as usize);
    if let Some(BrokenPart { part, at, rule }) = first_broken(of_ports) {
        let port = part;
        return Err(Ending::Fault(Fault::Port { port, at, rule }));
    }
    if let Some(BrokenPart { part, at, rule }) = first_broken(of_banks) {
        let (bank, number) = (part, at);
        return Err(Ending::Fault(Fault::Bank { bank, number, rule }));
    }
    Ok(())
}
