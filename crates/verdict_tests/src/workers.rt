//! Several workers at once.

ghost use Rattle.std.specs.Prelude.{◌≡◌, [], replicate, IfOk};
ghost use Rattle.lf_rules.specs.Lists.{lists_of};
ghost use Rattle.lf_pool.specs.Job.{AreJobs};

use crate::verdicts::yes;
use lf_pool::{Jobs, run_jobs};
use lf_rules::Outcome;
use lf_verdict::{Gate, check_shape};
use std::alloc::Global;
use std::process::Abort;
use std::sync::Wait;
use std::sync::atomic::{AtomicU64, Ordering};
use std::test::Fail;
use std::thread;
use std::thread::Threads;
use trace_samples::{FOUR_BANKS, trace_of};

/// Holds each of the first so many jobs until all of these have entered.
#[derive(Drop)]
struct Meeting {
    wanted: u64,
    entered: AtomicU64,
    /// How many saw all inside.
    met: AtomicU64,
}

impl Meeting {
    fn of(wanted: u32) -> Meeting {
        Meeting {
            wanted: u64::from(wanted),
            entered: AtomicU64::new(0),
            met: AtomicU64::new(0),
        }
    }
}

impl Gate for Meeting {
    fn enter(&self, job: u32) {
        if u64::from(job) >= self.wanted {
            return;
        }
        self.entered.fetch_add(1, Ordering::SeqCst);
        for _ in 0..10_000_000u64 {
            if self.entered.load(Ordering::SeqCst) >= self.wanted {
                self.met.fetch_add(1, Ordering::SeqCst);
                break;
            }
            thread::yield_now();
        }
    }
}

/// So many lists of nothing.
fn empty_lists<X: Drop>(alloc: Global, count: u32) -> Result<Vec<Vec<X>>, Fail>
    ensures { IfOk result (λ all. lists_of all ≡ replicate count []) }
{
    let mut all = Vec::new(alloc);
    for _made in 0..count {
        all.push(Vec::new(alloc))?;
    }
    Ok(all)
}

/// What there is to do for one port and four banks that have no events.
fn no_events(alloc: Global) -> Result<Jobs, Fail>
    ensures { IfOk result AreJobs }
{
    let logs = empty_lists(alloc, 5)?;
    let orders = empty_lists(alloc, 4)?;
    Ok(Jobs {
        shape: FOUR_BANKS,
        memory: Vec::new(alloc),
        logs,
        orders,
    })
}

/// Fails where so many workers of the pool are not inside at once, or a job does not pass.
fn assert_met_by_run_jobs<T: Abort + AllocGlobal + Threads + Wait + Sync>(
    rt: &T,
    workers: u32,
) -> Result<(), Fail> {
    let jobs = no_events(rt.alloc())?;
    let gate = Meeting::of(workers);
    match run_jobs(rt, rt.alloc(), &jobs, workers, &gate) {
        Ok(outcomes) => {
            assert_eq!(rt; outcomes.as_slice(), [Outcome::Passed; 5].as_slice());
            assert_eq!(rt; gate.met.load(Ordering::SeqCst), u64::from(workers));
            Ok(())
        }
        Err(_) => Err(Fail::new("no outcomes")),
    }
}

/// Two workers hold the jobs 0 and 1, and five hold all five: each sees the others inside.
#[test]
fn workers_inside_at_once(rt: HostRuntime) -> Result<(), Fail> {
    let bytes = trace_of(rt.alloc(), &FOUR_BANKS, &[])?;
    for workers in [2u32, 5] {
        assert_met_by_run_jobs(&rt, workers)?;
        let gate = Meeting::of(workers);
        let verdict = check_shape(&rt, &FOUR_BANKS, &[&bytes], workers, &gate);
        assert_eq!(rt; verdict, yes(rt.alloc(), &[])?);
        assert_eq!(rt; gate.met.load(Ordering::SeqCst), u64::from(workers));
    }
    Ok(())
}

/// A check that does all jobs on one thread never has two of them inside, however many workers it is given.
#[test]
fn all_jobs_on_one_thread(rt: HostRuntime) -> Result<(), Fail> {
    let bytes = trace_of(rt.alloc(), &FOUR_BANKS, &[])?;
    let gate = Meeting::of(5);
    let verdict = check_shape(&rt, &FOUR_BANKS, &[&bytes], 16, &gate);
    assert_eq!(rt; verdict, yes(rt.alloc(), &[])?);
    assert_eq!(rt; gate.met.load(Ordering::SeqCst), 5);
    Ok(())
}
