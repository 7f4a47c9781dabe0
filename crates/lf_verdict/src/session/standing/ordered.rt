//! The order of a trace whose records have all come.

ghost use Rattle.std.specs.Prelude.{◌≡◌, true, List, IfOk, IfErr, IsSome};
ghost use Rattle.lf_rules.specs.declared.shape.Shape.{Shape};
ghost use Rattle.lf_rules.specs.declared.event.Record.{Record};
ghost use Rattle.lf_rules.specs.Address.{FlatMemory};
ghost use Rattle.lf_verdict.specs.Standing.{StandsAfterAll};
ghost use Rattle.lf_verdict.specs.Outcome.{HasOrder};
ghost use Rattle.lf_verdict.specs.inner.Coming.{logs_so_far, IsShort, CanEnd};
ghost use Rattle.lf_verdict.specs.inner.Ending.{IsEnding, IsOrderOf};
ghost use Rattle.lf_verdict.specs.inner.Judged.{IsInOrder};

use crate::answer::Fault;
use crate::early_end::Ending;
use crate::order::least_order;
use crate::session::standing::Standing;
use std::alloc::Global;

impl Standing {
    /// The least order of the logs. Numbers are judged first, then the ports, then the banks, then
    /// whether the logs wait for one another.
    fn judged_order(&self, alloc: Global) -> Result<Vec<u8>, Ending>
        requires end { CanEnd self.now }
        requires kept { self.now.entries.keeps ≡ true }
        ensures order { (shape : Shape) (memory : FlatMemory) (records : List Record) →
            StandsAfterAll shape memory records self.now → IsShort shape records
            → IfOk result (λ order. IsOrderOf shape memory (logs_so_far shape records) order.items) }
        ensures fault { (shape : Shape) (memory : FlatMemory) (records : List Record) →
            StandsAfterAll shape memory records self.now → IsShort shape records
            → IfErr result (IsEnding shape memory (logs_so_far shape records)) }
    {
        self.judge_numbers()?;
        self.judge_rules()?;
        least_order(alloc, &self.entries.logs)
    }

    /// How many events the logs have, which have an order. Only the entries that are kept are looked at.
    fn count_in_order(&self) -> Result<u32, Ending>
        requires { CanEnd self.now }
        ensures order { (shape : Shape) (memory : FlatMemory) (records : List Record) →
            StandsAfterAll shape memory records self.now → IsShort shape records
            → IfOk result (HasOrder shape memory (logs_so_far shape records)) }
        ensures fault { (shape : Shape) (memory : FlatMemory) (records : List Record) →
            StandsAfterAll shape memory records self.now → IsShort shape records
            → IfErr result (IsEnding shape memory (logs_so_far shape records)) }
    {
        self.judge_numbers()?;
        self.judge_rules()?;
        match self.entries.progress.finish(&self.entries.logs) {
            Ok(()) => Ok(self.entries.count()),
            Err(ring) => Err(Ending::Fault(Fault::Cycle(ring))),
        }
    }

    /// How many events the logs have, which have an order, and the least one where every entry is kept.
    pub(super) fn in_order(&self, alloc: Global) -> Result<(u32, Option<Vec<u8>>), Ending>
        requires { CanEnd self.now }
        ensures order { (shape : Shape) (memory : FlatMemory) (records : List Record) →
            StandsAfterAll shape memory records self.now → IsShort shape records
            → IfOk result (λ found. IsInOrder shape memory (logs_so_far shape records) found.0 found.1) }
        ensures kept { self.now.entries.keeps ≡ true → IfOk result (λ found. IsSome found.1) }
        ensures fault { (shape : Shape) (memory : FlatMemory) (records : List Record) →
            StandsAfterAll shape memory records self.now → IsShort shape records
            → IfErr result (IsEnding shape memory (logs_so_far shape records)) }
    {
        if !self.entries.keeps {
            return Ok((self.count_in_order()?, None));
        }
        let order = self.judged_order(alloc)?;
        Ok((order.len() as u32, Some(order)))
    }
}
