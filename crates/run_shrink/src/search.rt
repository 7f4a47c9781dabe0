//! The search for a smaller trace.

ghost use Rattle.std.specs.Prelude.{◌≡◌, ◌≤◌, ℕ, List, length, IfOk};
ghost use Rattle.lf_rules.specs.InRange.{IsShape};
ghost use Rattle.run_shrink.specs.declared.candidate.Kept.{Kept};
ghost use Rattle.run_shrink.specs.Candidate.{IsKept, IsNoLargerThan};
ghost use Rattle.run_shrink.specs.Told.{WasTold, TellOf};

use crate::candidate::{Candidate, Kept, kept_if};
use crate::plan::Plan;
use crate::wanted::Wanted;
use lf_codec::Header;
use lf_rules::{NoMemory, Shape};
use std::alloc::Global;

/// Is told how far a search is.
pub trait Observer {
    /// What it is told turns one into the other.
    ghost tells: { Self → ℕ → ℕ → Self → Type 0 };

    /// So many smaller traces were judged, and the smallest one so far has so many events.
    fn judged(&mut self, checks: u32, left: usize)
        ensures { tells self.old checks left self.new };
}

/// Hears nothing.
#[derive(Clone, Copy)]
pub struct Silent;

impl Observer for Silent {
    ghost tells = { λ old checks left new. new ≡ old };

    fn judged(&mut self, _checks: u32, _left: usize) {}
}

/// The smallest trace that was found, and how many were judged.
#[derive(Drop)]
pub(crate) struct Found {
    pub best: Kept,
    pub checks: u32,
}

/// The smallest trace after a candidate was judged.
#[derive(Drop)]
struct Tried {
    best: Kept,
    was_kept: bool,
}

/// Judges a candidate.
#[tactic(auto, using(crate::proofs::Larger::smaller_still))]
fn judge(
    alloc: Global,
    shape: &Shape,
    header: &Header,
    wanted: &Wanted,
    candidate: Candidate,
    best: Kept,
) -> Result<Tried, NoMemory>
    requires shape { IsShape shape.now }
    requires kept { IsKept shape.now wanted.now best }
    ensures kept { IfOk result (λ tried. IsKept shape.now wanted.now tried.best) }
    ensures fewer { IfOk result (λ tried. length tried.best.records.items ≤ length best.records.items) }
    ensures smaller { IfOk result (λ tried. (first : Kept) → IsNoLargerThan first best →
        IsNoLargerThan first tried.best) }
{
    match kept_if(alloc, shape, header, wanted, candidate, &best)? {
        Some(kept) => Ok(Tried {
            best: kept,
            was_kept: true,
        }),
        None => Ok(Tried {
            best,
            was_kept: false,
        }),
    }
}

/// Judges at most so many traces, and keeps each that has the fault that is wanted and is smaller than the one that was
/// kept before. The observer is told after each.
#[tactic(auto, using(crate::proofs::Larger::same_size))]
pub(crate) fn smallest<O: Observer>(
    alloc: Global,
    shape: &Shape,
    header: &Header,
    wanted: &Wanted,
    first: Kept,
    most: u32,
    observer: &mut O,
) -> Result<Found, NoMemory>
    requires shape { IsShape shape.now }
    requires kept { IsKept shape.now wanted.now first }
    ensures kept { IfOk result (λ found. IsKept shape.now wanted.now found.best) }
    ensures smaller { IfOk result (λ found. IsNoLargerThan first found.best) }
    ensures checks { IfOk result (λ found. found.checks ≤ most) }
    ensures told { (calls : List (ℕ × ℕ)) × WasTold O.tells observer.old calls observer.new
        × IfOk result (λ found. TellOf (length first.records.items) calls found.checks
        (length found.best.records.items)) }
{
    let mut best = first;
    let mut plan = Plan::new(alloc, shape, wanted, &best)?;
    for checks in 0..most {
        let Some(candidate) = plan.next(&best)? else {
            return Ok(Found { best, checks });
        };
        let tried = judge(alloc, shape, header, wanted, candidate, best)?;
        best = tried.best;
        observer.judged(checks + 1, best.records.len());
        plan.note(&best, tried.was_kept)?;
    }
    Ok(Found { best, checks: most })
}
