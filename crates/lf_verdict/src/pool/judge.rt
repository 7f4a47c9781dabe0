//! The logs of a whole trace, judged by workers.

ghost use Rattle.std.specs.Prelude.{◌≡◌, ◌+◌, ◌<◌, ◌≤◌, ◌^◌, length, IfOk, IfErr};
ghost use Rattle.std.specs.List.{All};
ghost use Rattle.lf_rules.specs.Address.{flat_memory};
ghost use Rattle.lf_rules.specs.InRange.{IsShape};
ghost use Rattle.lf_rules.specs.Lists.{lists_of};
ghost use Rattle.lf_pool.specs.Job.{AreJobs, AreJobOutcomes};
ghost use Rattle.lf_verdict.specs.inner.Ending.{IsEnding, IsOrderOf, IsLogsVerdict, AreWholeBelow};
ghost use Rattle.lf_verdict.specs.inner.Jobs.{LogsFit, AreJobsOf, IsWorkersVerdict};

use crate::answer::{Refusal, Verdict};
use crate::early_end::Ending;
use crate::order::order_of;
use crate::pool::numbers::number_banks;
use crate::pool::outcomes::judge_outcomes;
use lf_pool::{Gate, Jobs, PoolFault, run_jobs};
use lf_rules::{Logs, Memory, Outcome, Shape};
use std::alloc::Global;
use std::sync::Wait;
use std::thread::Threads;

/// What there is to do for the logs of a trace, or the fault of the lowest bank whose numbers are not
/// whole.
pub fn jobs_of(alloc: Global, shape: &Shape, memory: Memory, logs: Logs) -> Result<Jobs, Ending>
    requires shape { IsShape shape.now }
    requires count { length logs.items ≡ shape.now.ports + shape.now.banks }
    requires short { All (λ log. length log.items ≤ 2 ^ 24) logs.items }
    requires fit { LogsFit shape.now (lists_of logs) }
    ensures jobs { IfOk result (AreJobsOf shape.now (flat_memory memory.items) (lists_of logs)) }
    ensures fault { IfErr result (IsEnding shape.now (flat_memory memory.items) (lists_of logs)) }
{
    let orders = number_banks(alloc, shape, &logs)?;
    Ok(Jobs {
        shape: *shape,
        memory,
        logs,
        orders,
    })
}

/// The least order of the logs, where no outcome is a fault. The ports are judged first, then the banks,
/// then whether the logs wait for one another.
fn judged_order(alloc: Global, jobs: &Jobs, outcomes: &[Outcome]) -> Result<Vec<u8>, Ending>
    requires ready { AreJobs jobs.now }
    requires whole { AreWholeBelow (lists_of jobs.now.logs) jobs.now.shape.banks }
    requires outcomes { AreJobOutcomes jobs.now outcomes.now }
    ensures order { IfOk result (λ order.
        IsOrderOf jobs.now.shape (flat_memory jobs.now.memory.items) (lists_of jobs.now.logs) order.items) }
    ensures fault { IfErr result (IsEnding jobs.now.shape (flat_memory jobs.now.memory.items)
        (lists_of jobs.now.logs)) }
{
    judge_outcomes(jobs, outcomes)?;
    order_of(alloc, &jobs.logs)
}

/// The verdict where all jobs are done.
fn jobs_verdict(alloc: Global, jobs: &Jobs, outcomes: &[Outcome]) -> Verdict
    requires ready { AreJobs jobs.now }
    requires whole { AreWholeBelow (lists_of jobs.now.logs) jobs.now.shape.banks }
    requires outcomes { AreJobOutcomes jobs.now outcomes.now }
    ensures { IsLogsVerdict jobs.now.shape (flat_memory jobs.now.memory.items) (lists_of jobs.now.logs) result }
{
    match judged_order(alloc, jobs, outcomes) {
        Ok(order) => Verdict::Yes {
            events: order.len() as u32,
            order,
        },
        Err(ending) => Verdict::from(ending),
    }
}

/// The verdict of the logs of a trace that agrees with the shape, by so many workers. Each passes the
/// gate before each port and each bank that it replays.
pub fn logs_verdict<G: Gate + Sync, R: Threads + Wait + Sync>(
    rt: &R,
    alloc: Global,
    shape: &Shape,
    memory: Memory,
    logs: Logs,
    workers: u32,
    gate: &G,
) -> Verdict
    requires shape { IsShape shape.now }
    requires count { length logs.items ≡ shape.now.ports + shape.now.banks }
    requires short { All (λ log. length log.items ≤ 2 ^ 24) logs.items }
    requires fit { LogsFit shape.now (lists_of logs) }
    ensures verdict { IsWorkersVerdict shape.now (flat_memory memory.items) (lists_of logs) result }
    ensures thread { result ≡ Verdict.Refused Refusal.Thread → 1 < workers }
{
    match jobs_of(alloc, shape, memory, logs) {
        Ok(jobs) => match run_jobs(rt, alloc, &jobs, workers, gate) {
            Ok(outcomes) => jobs_verdict(alloc, &jobs, &outcomes),
            Err(PoolFault::Spawn) => Verdict::Refused(Refusal::Thread),
            Err(_) => Verdict::Refused(Refusal::Memory),
        },
        Err(ending) => Verdict::from(ending),
    }
}
