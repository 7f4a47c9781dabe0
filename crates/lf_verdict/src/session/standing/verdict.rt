//! What is answered of a trace whose records have all come.

ghost use Rattle.std.specs.Prelude.{◌≡◌, ◌≤◌, ◌<◌, ℕ, true, List, length, None, IfOk, IfErr, OnOk, IsSome, IfSome};
ghost use Rattle.std.specs.Prelude.{IfNone};
ghost use Rattle.lf_rules.specs.declared.shape.Shape.{Shape};
ghost use Rattle.lf_rules.specs.declared.event.Record.{Record};
ghost use Rattle.lf_rules.specs.Address.{FlatMemory};
ghost use Rattle.lf_logs.specs.Incomplete.{IsFirstIncomplete};
ghost use Rattle.lf_verdict.specs.Outcome.{IsYesOutcome};
ghost use Rattle.lf_verdict.specs.Parts.{PartsRun};
ghost use Rattle.lf_verdict.specs.inner.Ending.{IsEnding, AreWholeBelow};
ghost use Rattle.lf_verdict.specs.inner.Judged.{IsLogsJudged};
ghost use Rattle.lf_verdict.specs.inner.Coming.{logs_so_far, IsShort, CanEnd};
ghost use Rattle.lf_verdict.specs.Standing.{Counts, StandsAfterAll, IsWatch, IsKnown};
ghost use Rattle.lf_verdict.specs.Breaking.{IsFaultOfPart, IsNamedFault, NoneBroke};
ghost use Rattle.lf_verdict.specs.inner.Noting.{IsPortWhole, IsBankWhole, IsOfLowestBank, IsPartBroken, NamesRecord};

use crate::answer::{Fault, Outcome};
use crate::broken_part::{BrokenPart, first_broken};
use crate::early_end::{Ending, number_ending};
use crate::session::breaking::{Broken, FirstBreak, PartFault, Watch};
use crate::session::standing::Standing;
use lf_logs::Incomplete;
use lf_stats::Stats;
use std::alloc::Global;

/// What is answered of the records that came.
#[derive(Drop)]
pub struct Judged {
    pub outcome: Outcome,
    /// After a yes the least order, where every entry is kept.
    pub order: Option<Vec<u8>>,
    /// After a yes the first request that has no reply.
    pub incomplete: Option<Incomplete>,
    /// After a yes the statistics, where each bank counts.
    pub statistics: Option<Stats>,
}

impl Judged {
    /// Where it is no yes.
    pub fn of(outcome: Outcome) -> Judged
        ensures { result ≡ record { outcome = outcome; order = None; incomplete = None; statistics = None } }
    {
        Judged {
            outcome,
            order: None,
            incomplete: None,
            statistics: None,
        }
    }
}

impl Standing {
    /// The least number of the lowest bank that is missing or double.
    pub(super) fn judge_numbers(&self) -> Result<(), Ending>
        requires { length self.now.banks.items ≤ 16 }
        ensures whole { (shape : Shape) (memory : FlatMemory) (records : List Record) →
            StandsAfterAll shape memory records self.now
            → OnOk result (AreWholeBelow (logs_so_far shape records) shape.banks) }
        ensures fault { (shape : Shape) (memory : FlatMemory) (records : List Record) →
            StandsAfterAll shape memory records self.now
            → IfErr result (IsEnding shape memory (logs_so_far shape records)) }
    {
        for (bank, judge) in self.banks.iter().enumerate() {
            if let Some(fault) = judge.order.fault() {
                return Err(number_ending(bank as u8, fault));
            }
        }
        Ok(())
    }

    /// The lowest port that is broken, then the lowest bank.
    pub(super) fn judge_rules(&self) -> Result<(), Ending>
        requires ports { length self.now.entries.ports.items ≤ 16 }
        requires banks { length self.now.banks.items ≤ 16 }
        ensures run { (shape : Shape) (memory : FlatMemory) (records : List Record) →
            StandsAfterAll shape memory records self.now
            → AreWholeBelow (logs_so_far shape records) shape.banks →
            OnOk result (PartsRun shape memory (logs_so_far shape records)) }
        ensures fault { (shape : Shape) (memory : FlatMemory) (records : List Record) →
            StandsAfterAll shape memory records self.now
            → AreWholeBelow (logs_so_far shape records) shape.banks →
            IfErr result (IsEnding shape memory (logs_so_far shape records)) }
    {
        if let Some(BrokenPart { part, at, rule }) = first_broken(&self.entries.ports) {
            let port = part;
            return Err(Ending::Fault(Fault::Port { port, at, rule }));
        }
        if let Some(BrokenPart { part, at, rule }) = first_broken(&self.banks) {
            let (bank, number) = (part, at);
            return Err(Ending::Fault(Fault::Bank { bank, number, rule }));
        }
        Ok(())
    }

    /// The lowest tag without a reply, of the lowest port that has one.
    fn first_incomplete(&self) -> Option<Incomplete>
        requires { length self.now.entries.ports.items ≤ 16 }
        ensures { (shape : Shape) (memory : FlatMemory) (records : List Record) →
            StandsAfterAll shape memory records self.now
            → PartsRun shape memory (logs_so_far shape records)
            → IsFirstIncomplete shape.ports (logs_so_far shape records) result }
    {
        for port in 0..self.entries.ports.len() {
            let judge = &self.entries.ports[port];
            if let Some(tag) = judge.step.lowest_waiting() {
                let port = port as u8;
                return Some(Incomplete { port, tag });
            }
        }
        None
    }

    /// What is answered after a yes, or what ends the check before one.
    fn judged_yes(&self, alloc: Global) -> Result<Judged, Ending>
        requires { CanEnd self.now }
        ensures judged { (shape : Shape) (memory : FlatMemory) (records : List Record) →
            StandsAfterAll shape memory records self.now → IsShort shape records
            → IfOk result (IsLogsJudged shape memory (logs_so_far shape records)) }
        ensures ordered { self.now.entries.keeps ≡ true → IfOk result (λ judged. IsSome judged.order) }
        ensures counted { Counts self.now → IfOk result (λ judged. IsSome judged.statistics) }
        ensures fault { (shape : Shape) (memory : FlatMemory) (records : List Record) →
            StandsAfterAll shape memory records self.now → IsShort shape records
            → IfErr result (IsEnding shape memory (logs_so_far shape records)) }
    {
        let (events, order) = self.in_order(alloc)?;
        let statistics = self.statistics(alloc)?;
        Ok(Judged {
            outcome: Outcome::Yes { events },
            order,
            incomplete: self.first_incomplete(),
            statistics,
        })
    }

    /// What is answered of the records so far, as those of a whole trace.
    pub fn judged(&self, alloc: Global) -> Judged
        requires { CanEnd self.now }
        ensures judged { (shape : Shape) (memory : FlatMemory) (records : List Record) →
            StandsAfterAll shape memory records self.now → IsShort shape records
            → IsLogsJudged shape memory (logs_so_far shape records) result }
        ensures ordered { self.now.entries.keeps ≡ true → IsYesOutcome result.outcome → IsSome result.order }
        ensures counted { Counts self.now → IsYesOutcome result.outcome → IsSome result.statistics }
    {
        match self.judged_yes(alloc) {
            Ok(judged) => judged,
            Err(ending) => Judged::of(Outcome::from(ending)),
        }
    }

    /// The lowest port that is at fault.
    fn port_at_fault(&self) -> Option<PartFault>
        requires { length self.now.entries.ports.items ≤ 16 }
        ensures some { (shape : Shape) (memory : FlatMemory) (records : List Record) →
            StandsAfterAll shape memory records self.now
            → IfSome result (IsFaultOfPart shape memory records) }
        ensures none { (shape : Shape) (memory : FlatMemory) (records : List Record) →
            StandsAfterAll shape memory records self.now
            → IfNone result ((port : ℕ) → port < shape.ports → IsPortWhole shape memory records port) }
        ensures named { (shape : Shape) (memory : FlatMemory) (records : List Record) →
            StandsAfterAll shape memory records self.now
            → IfSome result (IsNamedFault shape memory records) }
    {
        for port in 0..self.entries.ports.len() {
            if let Some(fault) = self.entries.port_fault(port as u8) {
                return Some(fault);
            }
        }
        None
    }

    /// The lowest bank that is at fault.
    fn bank_at_fault(&self) -> Option<PartFault>
        requires { length self.now.banks.items ≤ 16 }
        ensures some { (shape : Shape) (memory : FlatMemory) (records : List Record) →
            StandsAfterAll shape memory records self.now
            → IfSome result (IsFaultOfPart shape memory records) }
        ensures none { (shape : Shape) (memory : FlatMemory) (records : List Record) →
            StandsAfterAll shape memory records self.now
            → IfNone result ((bank : ℕ) → bank < shape.banks → IsBankWhole shape memory records bank) }
        ensures lowest { (shape : Shape) (memory : FlatMemory) (records : List Record) →
            StandsAfterAll shape memory records self.now
            → IfSome result (IsOfLowestBank shape memory records) }
    {
        for bank in 0..self.banks.len() {
            if let Some(fault) = self.bank_fault(bank as u8) {
                return Some(fault);
            }
        }
        None
    }

    /// The lowest port that is at fault, or otherwise the lowest bank.
    pub fn at_fault(&self) -> Option<PartFault>
        requires ports { length self.now.entries.ports.items ≤ 16 }
        requires banks { length self.now.banks.items ≤ 16 }
        ensures some { (shape : Shape) (memory : FlatMemory) (records : List Record) →
            StandsAfterAll shape memory records self.now
            → IfSome result (IsFaultOfPart shape memory records) }
        ensures none { (shape : Shape) (memory : FlatMemory) (records : List Record) →
            StandsAfterAll shape memory records self.now
            → IfNone result (NoneBroke shape memory records) }
        ensures named { (shape : Shape) (memory : FlatMemory) (records : List Record) →
            StandsAfterAll shape memory records self.now
            → IfSome result (IsNamedFault shape memory records) }
    {
        match self.port_at_fault() {
            Some(fault) => Some(fault),
            None => self.bank_at_fault(),
        }
    }

    /// A part that is at fault, where there is one, and where that is known the first record upon which one was.
    pub fn broken(&self) -> Option<Broken>
        requires ports { length self.now.entries.ports.items ≤ 16 }
        requires banks { length self.now.banks.items ≤ 16 }
        ensures some { (start : ℕ) (shape : Shape) (memory : FlatMemory) (records : List Record)
            → StandsAfterAll shape memory records self.now → IsWatch start shape memory records self.now.watch
            → IfSome result (IsPartBroken start shape memory records) }
        ensures none { (start : ℕ) (shape : Shape) (memory : FlatMemory) (records : List Record)
            → StandsAfterAll shape memory records self.now → IsWatch start shape memory records self.now.watch
            → IfNone result (NoneBroke shape memory records) }
        ensures named { IsKnown self.now.watch → IfSome result NamesRecord }
    {
        match self.watch {
            Watch::Whole { .. } => None,
            Watch::First(FirstBreak { fault, upon }) => Some(Broken::Part {
                fault,
                upon: Some(upon),
            }),
            Watch::Unknown => match self.at_fault() {
                Some(fault) => Some(Broken::Part { fault, upon: None }),
                None => None,
            },
        }
    }
}
