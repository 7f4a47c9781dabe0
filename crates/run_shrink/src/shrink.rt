//! Reads the bytes of a trace, judges them, and searches for a smaller trace with the same fault.

ghost use Rattle.std.specs.Prelude.{◌≡◌, ℕ, List, Result, true, IfOk};
ghost use Rattle.lf_rules.specs.declared.shape.Shape.{Shape};
ghost use Rattle.lf_rules.specs.InRange.{IsShape};
ghost use Rattle.lf_verdict.specs.declared.answer.Refusal.{Refusal};
ghost use Rattle.lf_verdict.specs.Conclusion.{IsConclusion};
ghost use Rattle.lf_verdict.specs.Outcome.{IsDecidedOutcome};
ghost use Rattle.run_stream.specs.Counted.{calls_of, failures_of, account_of};
ghost use Rattle.run_engine.specs.Needs.{bytes_needs};
ghost use Rattle.run_engine.specs.Program.{IsAsked};
ghost use Rattle.run_engine.specs.Run.{IsShapeFor};
ghost use Rattle.run_shrink.specs.Broken.{HasFault};
ghost use Rattle.run_shrink.specs.Candidate.{IsKept};
ghost use Rattle.run_shrink.specs.Shrunk.{IsShrunk, IsShrinkingOf, IsShrinkingOn, AreToldOf, AreToldIn};
ghost use Rattle.run_shrink.specs.Told.{WasTold, TellOf};

use crate::broken::RuleFault;
use crate::candidate::{Kept, is_alone};
use crate::numbers::{Place, places_of};
use crate::search::{Found, Observer, smallest};
use crate::wanted::{Sought, Wanted};
use explain_why::{Trace, trace_in};
use lf_rules::{NoMemory, Shape};
use lf_verdict::{Conclusion, Outcome, Refusal};
use run_engine::{Counted, Judged, Needs, RunFault, judge, shape_for};
use std::alloc::Global;
use std::io::Read;
use std::thread::Threads;

/// What a search is asked for.
#[derive(Clone, Copy)]
pub struct Asked {
    /// What broke first is sought, and not the fault that the verdict names.
    pub first: bool,
    /// At most so many smaller traces are judged.
    pub most: u32,
}

/// The smallest trace that was found.
#[derive(Drop, PartialEq)]
pub struct Shrunk {
    /// Its bytes.
    pub bytes: Vec<u8>,
    /// Its fault.
    pub fault: RuleFault,
    /// How many events it has.
    pub left: usize,
    /// Where each of them stands in the trace that was read.
    pub places: Vec<Place>,
    /// The fault of the trace that was read.
    pub before: RuleFault,
    /// How many events that trace has.
    pub events: usize,
    /// How many smaller traces were judged.
    pub checks: u32,
}

/// What a search for a smaller trace came to.
#[derive(Drop, PartialEq)]
pub enum Shrinking {
    /// The outcome of the trace names no rule, or no rule broke first, so there is nothing to search for.
    Judged(Outcome),
    Shrunk(Shrunk),
}

/// The smallest trace that is found for a trace that has this fault.
fn shrunk_of<O: Observer>(
    alloc: Global,
    shape: &Shape,
    bytes: Vec<u8>,
    fault: RuleFault,
    sought: Sought,
    most: u32,
    observer: &mut O,
) -> Result<Shrunk, NoMemory>
    requires shape { IsShape shape.now }
    requires has { HasFault sought.first shape.now bytes.items fault }
    ensures shrunk { IfOk result (IsShrunk shape.now bytes.items sought.first most) }
    ensures before { IfOk result (λ s. s.before ≡ fault) }
    ensures told { (calls : List (ℕ × ℕ)) × WasTold O.tells observer.old calls observer.new
        × IfOk result (λ s. TellOf s.events calls s.checks s.left) }
{
    let Trace {
        header,
        memory,
        records,
    } = trace_in(alloc, &bytes)?;
    let wanted = Wanted::of(alloc, shape, &memory, &records, sought, fault)?;
    let events = records.len();
    let places = places_of(alloc, &records)?;
    let whole = Kept {
        memory,
        records,
        places,
        bytes,
        fault,
    };
    let Found { best, checks } = smallest(alloc, shape, &header, &wanted, whole, most, observer)?;
    let left = best.records.len();
    Ok(Shrunk {
        bytes: best.bytes,
        fault: best.fault,
        left,
        places: best.places,
        before: fault,
        events,
        checks,
    })
}

/// Searches where there is a fault of the kind that is asked for. Where memory runs out, that is the outcome.
fn shrinking_of<O: Observer>(
    alloc: Global,
    shape: &Shape,
    judged: Judged,
    asked: Asked,
    observer: &mut O,
) -> Shrinking
    requires in_range { IsShape shape.now }
    requires concluded { IsConclusion (bytes_needs true).asked shape.now judged.conclusion }
    requires kept { IsDecidedOutcome judged.conclusion.outcome → judged.bytes.items ≡ judged.conclusion.fed.bytes }
    ensures shrinking { IsShrinkingOf shape.now asked judged.conclusion result }
    ensures told { (calls : List (ℕ × ℕ)) × WasTold O.tells observer.old calls observer.new × AreToldOf calls result }
{
    let Judged { conclusion, bytes } = judged;
    let sought = Sought {
        first: asked.first,
        alone: is_alone(&conclusion),
    };
    let fault = RuleFault::of_conclusion(asked.first, &conclusion.outcome, &conclusion.broken);
    let Some(fault) = fault else {
        return Shrinking::Judged(conclusion.outcome);
    };
    match shrunk_of(alloc, shape, bytes, fault, sought, asked.most, observer) {
        Ok(shrunk) => Shrinking::Shrunk(shrunk),
        Err(NoMemory) => Shrinking::Judged(Outcome::Refused(Refusal::Memory)),
    }
}

/// Reads the trace until the reader is at its end or a fault of the format stands in what it gave, and judges it with
/// one worker for the shape that the configuration says. Where the outcome is a no, and that or what broke first, as it
/// is asked for, names a rule, it searches for a smaller trace with the same fault: the same record breaks the same
/// rule, and of a rule that compares bytes the same ones are expected. It judges at most so many, keeps each that has
/// the fault and is smaller than the one that it kept before, and answers the last one that it kept, or the trace
/// itself. The observer is told after each. Each read is a turn, and there are at most so many turns. Where the text is
/// no configuration, nothing is read.
///
/// `RunFault::Read` says that a read failed, and `RunFault::Turns` that the turns were used up before the trace was
/// read.
pub fn run_shrink<T: AllocGlobal + Threads + Sync + Send + Copy + 'static, R: Read, O: Observer>(
    rt: &T,
    reader: &mut Counted<R>,
    config: &str,
    asked: Asked,
    turns: u32,
    observer: &mut O,
) -> Result<Shrinking, RunFault>
    requires calls { calls_of reader.old ≡ 0 }
    requires failures { failures_of reader.old ≡ 0 }
    ensures unread { ¬ IsAsked config.now 1 → reader.new ≡ reader.old }
    ensures shrunk { (found : Result Shape Refusal) × IsShapeFor config.now 1 found × IsShrinkingOn
        (account_of R.remaining reader.old) (account_of R.remaining reader.new) asked turns found result }
    ensures told { (calls : List (ℕ × ℕ)) × WasTold O.tells observer.old calls observer.new × AreToldIn calls result }
{
    match shape_for(rt.alloc(), config, 1) {
        Ok(shape) => {
            let judged = judge(rt, reader, &shape, 1, Needs::bytes(true), turns)?;
            Ok(shrinking_of(rt.alloc(), &shape, judged, asked, observer))
        }
        Err(refusal) => Ok(Shrinking::Judged(Outcome::Refused(refusal))),
    }
}
