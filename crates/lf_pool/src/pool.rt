//! The pool: workers, each but one in a thread of its own, and what they give.

ghost use Rattle.std.specs.Prelude.{◌≡◌, ◌↔◌, ◌≤◌, ◌<◌, ◌+◌, ℕ, IsTrue, IfOk, OnOk, IfErr, None, IsSome};
ghost use Rattle.std.specs.Prelude.{[], length, map, All, replicate, slice_get, slice_index_or};
ghost use Rattle.std.specs.Bool.{OnTrue};
ghost use Rattle.lf_pool.specs.declared.rule.View.TheVariants.{Keeper};
ghost use Rattle.lf_pool.specs.Job.{AreJobs, AreJobOutcomes, AreOutcomesBy, count_of};
ghost use Rattle.lf_pool.specs.Workers.{IsWorkerCount, IsPoolFault};
ghost use Rattle.lf_pool.specs.Worked.{IsClaimer, IsWorked, entry_of, put_all, put_each};

use crate::gate::Gate;
use crate::job::{Jobs, count};
use crate::replays::{Gated, Replays};
use crate::rule::{NextWorker, PoolShared, PoolTable, Takes, View};
use crate::worker::{Claimer, Worked, WorkedBy, work};
use atomic_table::Seat;
use lf_rules::{NoMemory, Outcome};
use std::alloc::{AllocError, AllocFailed, Global};
use std::sync::Wait;
use std::thread;
use std::thread::{Promise, Scope, Threads};

/// Why there are no outcomes.
#[derive(Clone, Copy, Debug, PartialEq, Eq)]
pub enum PoolFault {
    /// There cannot be so many workers: not 1 to 16.
    Workers(u32),
    /// A growth was refused.
    NoMemory,
    /// A thread was refused. Those that had started were joined.
    Spawn,
}

impl From<NoMemory> for PoolFault {
    ghost use Rattle.lf_pool.specs.declared.pool.PoolFault.{PoolFault};

    ghost from_gives = { λ _ fault. fault ≡ PoolFault.NoMemory };

    fn from(_: NoMemory) -> PoolFault {
        PoolFault::NoMemory
    }
}

impl From<AllocError> for PoolFault {
    ghost use Rattle.lf_pool.specs.declared.pool.PoolFault.{PoolFault};

    ghost from_gives = { λ _ fault. fault ≡ PoolFault.NoMemory };

    fn from(_: AllocError) -> PoolFault {
        PoolFault::NoMemory
    }
}

/// The value that was not stored is dropped.
impl<T: Drop> From<AllocFailed<T>> for PoolFault {
    ghost use Rattle.lf_pool.specs.declared.pool.PoolFault.{PoolFault};

    ghost from_gives = { λ _ fault. fault ≡ PoolFault.NoMemory };

    fn from(_: AllocFailed<T>) -> PoolFault {
        PoolFault::NoMemory
    }
}

/// Whether there can be so many workers: 1 to 16.
pub fn is_worker_count(workers: u32) -> bool
    ensures { IsTrue result ↔ IsWorkerCount workers }
{
    (1..=16).contains(&workers)
}

impl<'a, P: Replays> Promise<Worked> for WorkedBy<'a, P> {
    ghost kept_by = { λ p r. IsWorked P.may_give p.jobs.now p.shared.now.table_id r };
}

/// A seat for the next worker.
fn new_claimer(shared: &PoolShared, keeper: &mut Seat<(), View>, number: u64) -> Claimer
    requires table { (keeper.old.table_id ≡ shared.now.table_id) × (0 < shared.now.table_id.words) }
    requires made { (keeper.old.me ≡ (Keeper number [], [])) × (number < 16) }
    ensures table { keeper.new.table_id ≡ keeper.old.table_id }
    ensures made { keeper.new.me ≡ (Keeper (number + 1) [], []) }
    ensures claimer { IsClaimer shared.now.table_id result }
{
    let seat = shared.split_seat::<NextWorker>(keeper);
    Claimer { seat, number }
}

/// A seat for each worker.
fn new_claimers(
    shared: &PoolShared,
    keeper: &mut Seat<(), View>,
    alloc: Global,
    workers: u32,
) -> Result<Vec<Claimer>, NoMemory>
    requires table { (keeper.old.table_id ≡ shared.now.table_id) × (0 < shared.now.table_id.words) }
    requires made { (keeper.old.me ≡ (Keeper 0 [], [])) × (workers ≤ 16) }
    ensures table { keeper.new.table_id ≡ keeper.old.table_id }
    ensures made { OnOk result (keeper.new.me ≡ (Keeper workers [], [])) }
    ensures claimers { IfOk result (λ v. (length v.items ≡ workers) × All (IsClaimer shared.now.table_id) v.items) }
{
    let mut claimers = Vec::with_capacity(alloc, workers as usize)?;
    for number in 0..workers {
        claimers.push_reserved(new_claimer(shared, keeper, u64::from(number)));
    }
    Ok(claimers)
}

/// Runs one worker here, and each other in a thread of the scope.
fn run_in<'s, E, P: Replays + Sync, R: Threads + Sync>(
    rt: &R,
    scope: &Scope<'s, E>,
    shared: &'s PoolShared,
    jobs: &'s Jobs,
    replays: &'s P,
    alloc: Global,
    claimers: Vec<Claimer>,
) -> Result<Vec<Worked>, PoolFault>
    requires table { (0 < shared.now.table_id.words) × (shared.now.key ≡ count_of jobs.now) }
    requires ready { AreJobs jobs.now }
    requires claimers { (0 < length claimers.items) × All (IsClaimer shared.now.table_id) claimers.items }
    ensures worked { IfOk result (λ v. (length v.items ≡ length claimers.items) ×
        All (IsWorked P.may_give jobs.entry.now shared.entry.now.table_id) v.items) }
    ensures fault { IfErr result (IsPoolFault (length claimers.items)) }
{
    let mut claimers = claimers;
    let own = claimers.pop().unwrap();
    let mut handles = Vec::with_capacity(alloc, claimers.len())?;
    for claimer in claimers {
        let promise = WorkedBy {
            jobs,
            shared,
            replays,
        };
        match scope.spawn_with(promise, move || work(shared, jobs, replays, alloc, claimer)) {
            Ok(handle) => handles.push_reserved(handle),
            Err(_) => return Err(PoolFault::Spawn),
        }
    }
    let own = work(shared, jobs, replays, alloc, own);
    let mut all = thread::join_promised(rt, handles)?;
    all.push(own)?;
    Ok(all)
}

/// Judges in a scope of its own, which ends when each of its threads has.
fn in_threads<P: Replays + Sync, R: Threads + Wait + Sync>(
    rt: &R,
    shared: &PoolShared,
    jobs: &Jobs,
    replays: &P,
    alloc: Global,
    claimers: Vec<Claimer>,
) -> Result<Vec<Worked>, PoolFault>
    requires table { (0 < shared.now.table_id.words) × (shared.now.key ≡ count_of jobs.now) }
    requires ready { AreJobs jobs.now }
    requires claimers { (0 < length claimers.items) × All (IsClaimer shared.now.table_id) claimers.items }
    ensures worked { IfOk result (λ v. (length v.items ≡ length claimers.items) ×
        All (IsWorked P.may_give jobs.now shared.now.table_id) v.items) }
    ensures fault { IfErr result (IsPoolFault (length claimers.items)) }
{
    thread::scope(
        thread::scope_env(),
        rt,
        move |scope| -> Result<Vec<Worked>, PoolFault>
            requires table { (0 < shared.now.table_id.words) × (shared.now.key ≡ count_of jobs.now) }
            requires ready { AreJobs jobs.now }
            requires claimers { (0 < length claimers.items) × All (IsClaimer shared.now.table_id) claimers.items }
            ensures worked { IfOk result (λ v. (length v.items ≡ length claimers.items) ×
                All (IsWorked P.may_give jobs.entry.now shared.entry.now.table_id) v.items) }
            ensures fault { IfErr result (IsPoolFault (length claimers.items)) }
        { run_in(rt, scope, shared, jobs, replays, alloc, claimers) },
    )
}

/// Puts each outcome at its job's number.
fn put(outcomes: &mut Vec<Option<Outcome>>, done: Vec<(u64, Outcome)>)
    ensures { outcomes.new.items ≡ put_all outcomes.old.items done.items }
{
    for (number, outcome) in done {
        if number < outcomes.len() as u64 {
            outcomes[number as usize] = Some(outcome);
        }
    }
}

/// Takes the workers' seats in, and puts each outcome at its job's number.
fn take_in<P: Replays>(
    shared: &PoolShared,
    keeper: &mut Seat<(), View>,
    jobs: &Jobs,
    made: u32,
    worked: Vec<Worked>,
    outcomes: &mut Vec<Option<Outcome>>,
)
    requires table { (keeper.old.table_id ≡ shared.now.table_id) × (0 < shared.now.table_id.words) }
    requires worked { All (IsWorked P.may_give jobs.now shared.now.table_id) worked.items }
    requires made { keeper.old.me ≡ (Keeper made [], []) }
    ensures table { keeper.new.table_id ≡ keeper.old.table_id }
    ensures made { keeper.new.me ≡ (Keeper made (map entry_of worked.items), []) }
    ensures outcomes { outcomes.new.items ≡ put_each outcomes.old.items worked.items }
{
    let _ = jobs;
    let _ = made;
    for one in worked {
        let Worked {
            seat,
            number: _,
            done,
            last: _,
        } = one;
        shared.join_seat::<Takes>(keeper, seat);
        put(outcomes, done);
    }
}

/// A place for each outcome.
fn blank(alloc: Global, count: usize) -> Result<Vec<Option<Outcome>>, NoMemory>
    ensures { IfOk result (λ v. v.items ≡ replicate count None) }
{
    let mut outcomes = Vec::with_capacity(alloc, count)?;
    for _ in 0..count {
        outcomes.push_reserved(None);
    }
    Ok(outcomes)
}

/// The outcomes, where each is there.
fn unwrapped(alloc: Global, outcomes: Vec<Option<Outcome>>) -> Result<Vec<Outcome>, NoMemory>
    requires { All (λ o. IsSome o) outcomes.items }
    ensures { IfOk result (λ v. (length v.items ≡ length outcomes.items)
        × ((i : ℕ) → i < length v.items → slice_get v.items i ≡ slice_index_or outcomes.items i None)) }
{
    let mut all = Vec::with_capacity(alloc, outcomes.len())?;
    for outcome in &outcomes {
        all.push_reserved(outcome.unwrap());
    }
    Ok(all)
}

/// Whether each worker went on until no job was left.
fn is_whole(worked: &Vec<Worked>) -> bool
    ensures { OnTrue result (All (λ r. IsSome r.last) worked.now.items) }
{
    worked.iter().all(|one| one.last.is_some())
}

/// Does each job by these replays, by so many workers: one here, and each other in a thread of its own, so that
/// with one no thread is made. The outcomes are those of the ports, and behind them those of the banks, each one that
/// the replay of its own job may give. `Workers` where there cannot be so many; `Spawn` where a thread was refused,
/// and `NoMemory` where a growth of the pool's own was refused: then no worker is left at work.
pub fn run_jobs_by<P: Replays + Sync, R: Threads + Wait + Sync>(
    rt: &R,
    alloc: Global,
    jobs: &Jobs,
    workers: u32,
    replays: &P,
) -> Result<Vec<Outcome>, PoolFault>
    requires ready { AreJobs jobs.now }
    ensures outcomes { IfOk result (λ v. AreOutcomesBy P.may_give jobs.now v.items) }
    ensures workers { (result ≡ Err (PoolFault.Workers workers)) ↔ ¬ IsWorkerCount workers }
    ensures fault { IfErr result (IsPoolFault workers) }
{
    if !is_worker_count(workers) {
        return Err(PoolFault::Workers(workers));
    }
    let count = count(jobs);
    let (table, mut keeper) = PoolTable::of_words(alloc, &[0], &u64::from(count))?;
    let claimers = new_claimers(&table.shared, &mut keeper, alloc, workers)?;
    let worked = in_threads(rt, &table.shared, jobs, replays, alloc, claimers)?;
    let mut outcomes = blank(alloc, count as usize)?;
    if !is_whole(&worked) {
        return Err(PoolFault::NoMemory);
    }
    take_in::<P>(
        &table.shared,
        &mut keeper,
        jobs,
        workers,
        worked,
        &mut outcomes,
    );
    table.close_with(keeper).free();
    Ok(unwrapped(alloc, outcomes)?)
}

/// Does each job as `run_jobs_by` does: a port's by the replay of its log, which never runs out of memory, a bank's by
/// the replay of its records, whose outcome is `NoMemory` where that replay ran out. Each worker passes the gate
/// before each of its jobs.
pub fn run_jobs<G: Gate + Sync, R: Threads + Wait + Sync>(
    rt: &R,
    alloc: Global,
    jobs: &Jobs,
    workers: u32,
    gate: &G,
) -> Result<Vec<Outcome>, PoolFault>
    requires ready { AreJobs jobs.now }
    ensures outcomes { IfOk result (λ v. AreJobOutcomes jobs.now v.items) }
    ensures workers { (result ≡ Err (PoolFault.Workers workers)) ↔ ¬ IsWorkerCount workers }
    ensures fault { IfErr result (IsPoolFault workers) }
{
    run_jobs_by(rt, alloc, jobs, workers, &Gated { gate })
}
