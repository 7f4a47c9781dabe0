//! The statistics of a trace whose records have all come.

ghost use Rattle.std.specs.Prelude.{◌≡◌, ◌<◌, ℕ, List, length, slice_index, slice_index_or};
ghost use Rattle.std.specs.Prelude.{IfOk, IfSome, IsSome};
ghost use Rattle.lf_rules.specs.declared.shape.Shape.{Shape};
ghost use Rattle.lf_rules.specs.declared.event.Record.{Record};
ghost use Rattle.lf_rules.specs.Address.{FlatMemory};
ghost use Rattle.lf_logs.specs.Tags.{PortStandsAfter};
ghost use Rattle.lf_stats.specs.Answer.{AreStats};
ghost use Rattle.lf_stats.specs.Statistics.{unanswered};
ghost use Rattle.lf_verdict.specs.declared.session.standing.bank_judge.BankJudge.{BankJudge};
ghost use Rattle.lf_verdict.specs.declared.session.standing.port_judge.PortJudge.{PortJudge};
ghost use Rattle.lf_verdict.specs.inner.Coming.{logs_so_far, IsShort};
ghost use Rattle.lf_verdict.specs.inner.Counting.{AreCountsOf};
ghost use Rattle.lf_verdict.specs.Parts.{PartsRun};
ghost use Rattle.lf_verdict.specs.Standing.{Counts, StandsAfterAll};

use crate::session::standing::Standing;
use crate::session::standing::bank_judge::BankJudge;
use crate::session::standing::port_judge::PortJudge;
use lf_rules::{NoMemory, numbers_are_whole};
use lf_stats::{BankStats, Stats, counts_are_statistics, slice_runs_accept_issued};
use std::alloc::Global;

/// The counts of each bank, where each counts.
fn bank_counts(alloc: Global, banks: &[BankJudge]) -> Result<Option<Vec<BankStats>>, NoMemory>
    ensures counts { IfOk result (λ counts. IfSome counts (λ found.
        AreCountsOf (length banks.now) banks.now found.items)) }
    ensures told { ((bank : ℕ) (d : BankJudge) → bank < length banks.now
        → IsSome (slice_index_or banks.now bank d).count) → IfOk result (λ counts. IsSome counts) }
{
    let mut counts = Vec::new(alloc);
    for judge in banks {
        let Some(count) = &judge.count else {
            return Ok(None);
        };
        counts.push(count.stats())?;
    }
    Ok(Some(counts))
}

/// Of each port how many tags wait for a reply.
fn port_counts(alloc: Global, ports: &[PortJudge]) -> Result<Vec<u32>, NoMemory>
    ensures count { IfOk result (λ counts. length counts.items ≡ length ports.now) }
    ensures each { IfOk result (λ counts. (port : ℕ) (d : PortJudge) (shape : Shape) (log : List Record) →
        port < length ports.now → PortStandsAfter (slice_index_or ports.now port d).step shape log
        → slice_index counts.items port ≡ unanswered log) }
{
    let mut counts = Vec::new(alloc);
    for judge in ports {
        counts.push(judge.step.unanswered())?;
    }
    Ok(counts)
}

impl Standing {
    /// The statistics of the records so far, where each bank counts and the parts run.
    pub(super) fn statistics(&self, alloc: Global) -> Result<Option<Stats>, NoMemory>
        ensures counted { (shape : Shape) (memory : FlatMemory) (records : List Record) →
            StandsAfterAll shape memory records self.now → IsShort shape records
            → PartsRun shape memory (logs_so_far shape records)
            → IfOk result (λ stats. IfSome stats (AreStats shape (logs_so_far shape records))) }
        ensures told { Counts self.now → IfOk result (λ stats. IsSome stats) }
    {
        numbers_are_whole();
        slice_runs_accept_issued();
        counts_are_statistics();
        let Some(banks) = bank_counts(alloc, &self.banks)? else {
            return Ok(None);
        };
        let unanswered = port_counts(alloc, &self.entries.ports)?;
        Ok(Some(Stats { banks, unanswered }))
    }
}
