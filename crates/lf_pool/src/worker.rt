//! One worker, which claims numbers and does their jobs.

ghost use Rattle.std.specs.Prelude.{◌≡◌, ◌≤◌, ◌<◌, ◌+◌, ◌^◌, [], ◌∷◌, ◌++◌, map, All, Any};
ghost use Rattle.lf_pool.specs.declared.rule.View.TheVariants.{Worker};
ghost use Rattle.lf_pool.specs.Job.{AreJobs, count_of};
ghost use Rattle.lf_pool.specs.Worked.{number_of, IsClaimer, IsWorked};

use crate::job::{Jobs, count};
use crate::replays::Replays;
use crate::rule::{Claim, PoolShared, View};
use atomic_table::Seat;
use lf_rules::Outcome;
use std::alloc::Global;

/// A worker that has claimed nothing.
#[derive(Drop)]
pub struct Claimer {
    pub seat: Seat<(), View>,
    pub number: u64,
}

/// What a worker did. It has no last claim where it stopped because memory ran out.
#[derive(Drop)]
pub struct Worked {
    pub seat: Seat<(), View>,
    pub number: u64,
    pub done: Vec<(u64, Outcome)>,
    pub last: Option<u64>,
}

/// What the thread of a worker gives.
#[derive_where(Clone, Copy)]
pub struct WorkedBy<'a, P> {
    pub jobs: &'a Jobs,
    pub shared: &'a PoolShared,
    pub replays: &'a P,
}

/// Claims a number, which is above all that this worker claimed before. `number` is its own, `done` what
/// it did, and the last job of that is below `low`.
fn claim(
    shared: &PoolShared,
    seat: &mut Seat<(), View>,
    number: u64,
    done: &Vec<(u64, Outcome)>,
    low: u64,
) -> u64
    requires table { (seat.old.table_id ≡ shared.now.table_id) × (0 < shared.now.table_id.words) ×
        (shared.now.key ≤ 32) }
    requires seat { seat.old.me ≡ (Worker number (map number_of done.now.items), []) }
    requires done { All (λ p. p.0 < shared.now.key) done.now.items }
    requires low { 0 < low → Any (λ p. p.0 + 1 ≡ low) done.now.items }
    ensures table { seat.new.table_id ≡ seat.old.table_id }
    ensures seat { seat.new.me ≡ (Worker number (map number_of done.now.items ++ result ∷ []), []) }
    ensures above { low ≤ result }
    ensures fits { result + 1 < 2 ^ 64 }
{
    let _ = done;
    let _ = (number, low);
    shared.fetch_add::<Claim>(seat, 0, 1)
}

/// Claims jobs and does them, until none is left or memory runs out.
pub fn work<P: Replays>(
    shared: &PoolShared,
    jobs: &Jobs,
    replays: &P,
    alloc: Global,
    claimer: Claimer,
) -> Worked
    requires table { (0 < shared.now.table_id.words) × (shared.now.key ≡ count_of jobs.now) }
    requires ready { AreJobs jobs.now }
    requires claimer { IsClaimer shared.now.table_id claimer }
    ensures { IsWorked P.may_give jobs.now shared.now.table_id result }
{
    let Claimer { mut seat, number } = claimer;
    let count = u64::from(count(jobs));
    let mut done = Vec::new(alloc);
    let mut low = 0;
    'jobs: loop {
        if done.reserve(1).is_err() {
            return Worked {
                seat,
                number,
                done,
                last: None,
            };
        }
        let next = claim(shared, &mut seat, number, &done, low);
        if next >= count {
            return Worked {
                seat,
                number,
                done,
                last: Some(next),
            };
        }
        done.push_reserved((next, replays.replay(alloc, jobs, next as u32)));
        low = next + 1;
    }
}
