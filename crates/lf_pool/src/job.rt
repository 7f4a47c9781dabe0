//! What there is to do: one replay for each port and for each bank.

ghost use Rattle.std.specs.Prelude.{◌≡◌, ◌+◌, ◌<◌, ◌≤◌, IfOk, IsSome};
ghost use Rattle.std.specs.List.{All};
ghost use Rattle.lf_rules.specs.Address.{flat_memory};
ghost use Rattle.lf_rules.specs.Outcomes.{IsBankOutcome};
ghost use Rattle.lf_rules.specs.Lists.{lists_of};
ghost use Rattle.lf_logs.specs.Places.{record_at, records_at};
ghost use Rattle.lf_replay.specs.Lent.{lent};
ghost use Rattle.lf_pool.specs.Job.{AreJobs, IsJobOutcome, count_of, records_of};

use lf_logs::{Place, port_replay, record_at};
use lf_replay::replay_lent;
use lf_rules::{Logs, Memory, NoMemory, Outcome, Record, Shape};
use std::alloc::Global;

/// The parts of a trace, each of which is replayed by itself. Of P ports and B banks, the jobs 0 to
/// P-1 are the replays of the ports' logs, and job P+b is that of bank b.
#[derive(Drop)]
pub struct Jobs {
    pub shape: Shape,
    pub memory: Memory,
    /// Those of the P ports, and behind them those of the B banks.
    pub logs: Logs,
    /// For each bank the places of its records, in the order of their numbers.
    pub orders: Vec<Vec<Place>>,
}

/// How many jobs there are.
pub(crate) fn count(jobs: &Jobs) -> u32
    requires { AreJobs jobs.now }
    ensures count { result ≡ count_of jobs.now }
    ensures few { result ≤ 32 }
{
    jobs.shape.ports + jobs.shape.banks
}

/// The records at the places, where they stand.
fn records_at<'a>(
    alloc: Global,
    logs: &'a Logs,
    places: &[Place],
) -> Result<Vec<&'a Record>, NoMemory>
    requires { All (λ place. IsSome (record_at (lists_of logs.now) place)) places.now }
    ensures { IfOk result (λ rs. lent rs.items ≡ records_at (lists_of logs.now) places.now) }
{
    let mut records = Vec::with_capacity(alloc, places.len())?;
    for place in places {
        records.push_reserved(record_at(logs, *place));
    }
    Ok(records)
}

/// The replay of this bank.
fn bank_job(alloc: Global, jobs: &Jobs, bank: u32) -> Outcome
    requires ready { AreJobs jobs.now }
    requires bank { bank < jobs.now.shape.banks }
    ensures { IsBankOutcome jobs.now.shape (flat_memory jobs.now.memory.items) (records_of jobs.now bank) result }
{
    match records_at(alloc, &jobs.logs, &jobs.orders[bank as usize]) {
        Ok(records) => replay_lent(alloc, &jobs.shape, &jobs.memory, bank, &records),
        Err(NoMemory) => Outcome::NoMemory,
    }
}

/// Does the job of this number.
pub(crate) fn job(alloc: Global, jobs: &Jobs, number: u32) -> Outcome
    requires ready { AreJobs jobs.now }
    requires number { number < count_of jobs.now }
    ensures { IsJobOutcome jobs.now number result }
{
    let ports = jobs.shape.ports;
    if number < ports {
        port_replay(&jobs.shape, &jobs.logs[number as usize])
    } else {
        bank_job(alloc, jobs, number - ports)
    }
}
