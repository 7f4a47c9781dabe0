//! The parts of a trace, judged while its records come.

ghost use Rattle.std.specs.Prelude.{◌≡◌, ◌+◌, ◌<◌, ◌^◌, ℕ, List, [], ◌∷◌, ◌++◌, length, IfSome, IfNone, OnOk};
ghost use Rattle.lf_rules.specs.declared.shape.Shape.{Shape};
ghost use Rattle.lf_rules.specs.declared.event.Record.{Record};
ghost use Rattle.lf_rules.specs.Address.{FlatMemory};
ghost use Rattle.lf_rules.specs.Run.{of_log};
ghost use Rattle.lf_codec.specs.Layout.{record_bytes};
ghost use Rattle.lf_codec.specs.Lent.{IsSpelling};
ghost use Rattle.lf_verdict.specs.Breaking.{IsFaultOfPart, IsNamedFault, NoneBroke, offset_after};
ghost use Rattle.lf_verdict.specs.inner.Noting.{IsBankWhole, IsFirstOfBank, EndsInRange};
ghost use Rattle.lf_verdict.specs.Standing.{Counts, IsWatch, IsKnown, StandsAfterAll};
ghost use Rattle.lf_verdict.specs.inner.Coming.{MayCome, CanStand};

mod bank_judge;
mod log_entries;
mod new;
mod ordered;
mod port_judge;
mod statistics;
mod verdict;

use crate::session::breaking::{FirstBreak, PartFault, Upon, Watch};
pub use bank_judge::BankJudge;
use lf_codec::view_len;
use lf_rules::{NoMemory, Outcome};
pub use log_entries::Entries;
use trace_views::RecordView;
pub use verdict::Judged;

/// The entries of the logs so far, with how each port stands, how each bank stands, and whether one of them broke.
#[derive(Drop)]
pub struct Standing {
    pub entries: Entries,
    pub banks: Vec<BankJudge>,
    pub watch: Watch,
}

impl Standing {
    /// Takes the next record of the trace, with the bytes that spell it or with none: keeps its entry, judges it by
    /// its port and hands it to its bank, which judges it in its turn. Where it is the first upon which a part breaks,
    /// that is noted.
    pub fn take(&mut self, item: &RecordView<'_>, bytes: &[u8]) -> Result<(), NoMemory>
        requires next { CanStand item.now self.old }
        requires spelled { IsSpelling bytes.now item.now }
        requires range { EndsInRange self.old.watch item.now }
        ensures judged { (shape : Shape) (memory : FlatMemory) (records : List Record) → MayCome shape records item.now
            → StandsAfterAll shape memory records self.old
            → OnOk result (StandsAfterAll shape memory (records ++ item.now ∷ []) self.new) }
        ensures watched { (start : ℕ) (shape : Shape) (memory : FlatMemory) (records : List Record) →
            MayCome shape records item.now
            → StandsAfterAll shape memory records self.old → IsWatch start shape memory records self.old.watch
            → OnOk result (IsWatch start shape memory (records ++ item.now ∷ []) self.new.watch) }
        ensures known { IsKnown self.old.watch → IsKnown self.new.watch }
        ensures keeps { self.new.entries.keeps ≡ self.old.entries.keeps }
        ensures counts { Counts self.old → Counts self.new }
    {
        let Watch::Whole { next } = self.watch else {
            return self.judge(item, bytes);
        };
        let at = self.entries.place_of(item);
        self.judge(item, bytes)?;
        self.note(item, at, next);
        Ok(())
    }

    /// Judges the next record of the trace.
    fn judge(&mut self, item: &RecordView<'_>, bytes: &[u8]) -> Result<(), NoMemory>
        requires next { CanStand item.now self.old }
        requires spelled { IsSpelling bytes.now item.now }
        ensures judged { (shape : Shape) (memory : FlatMemory) (records : List Record) → MayCome shape records item.now
            → StandsAfterAll shape memory records self.old
            → OnOk result (StandsAfterAll shape memory (records ++ item.now ∷ []) self.new) }
        ensures watch { self.new.watch ≡ self.old.watch }
        ensures keeps { self.new.entries.keeps ≡ self.old.entries.keeps }
        ensures counts { Counts self.old → Counts self.new }
    {
        self.entries.enter(item)?;
        let bank = usize::from(item.bank());
        if bank >= self.banks.len() {
            return Ok(());
        }
        self.banks[bank].take(item, bytes)
    }

    /// A fault of the bank: a rule that it broke, or otherwise a number that came twice.
    pub fn bank_fault(&self, bank: u8) -> Option<PartFault>
        ensures some { (shape : Shape) (memory : FlatMemory) (records : List Record) →
            StandsAfterAll shape memory records self.now
            → IfSome result (IsFaultOfPart shape memory records) }
        ensures none { (shape : Shape) (memory : FlatMemory) (records : List Record) →
            StandsAfterAll shape memory records self.now
            → IfNone result (IsBankWhole shape memory records bank) }
        ensures first { (shape : Shape) (memory : FlatMemory) (records : List Record) →
            StandsAfterAll shape memory records self.now
            → IfSome result (IsFirstOfBank shape memory records bank) }
    {
        let at = usize::from(bank);
        if at >= self.banks.len() {
            return None;
        }
        let judge = &self.banks[at];
        if let Outcome::Broken(number, rule) = judge.outcome {
            return Some(PartFault::Bank { bank, number, rule });
        }
        match judge.order.double() {
            Some(k) => Some(PartFault::Double { bank, k }),
            None => None,
        }
    }

    /// What broke upon the record, which came last: its port, or otherwise its bank.
    fn broke_upon(&self, item: &RecordView<'_>) -> Option<PartFault>
        ensures named { (shape : Shape) (memory : FlatMemory) (before : List Record) → NoneBroke shape memory before
            → StandsAfterAll shape memory (before ++ item.now ∷ []) self.now
            → IfSome result (IsNamedFault shape memory (before ++ item.now ∷ [])) }
        ensures none { (shape : Shape) (memory : FlatMemory) (before : List Record) → NoneBroke shape memory before
            → StandsAfterAll shape memory (before ++ item.now ∷ []) self.now
            → IfNone result (NoneBroke shape memory (before ++ item.now ∷ [])) }
    {
        match self.entries.port_fault(item.log()) {
            Some(fault) => Some(fault),
            None => self.bank_fault(item.bank()),
        }
    }

    /// Notes what broke upon the record, which came last, where no part broke before. It stands at this place of its
    /// log, and begins at this offset.
    fn note(&mut self, item: &RecordView<'_>, at: u32, offset: u64)
        requires range { offset + length (record_bytes item.now) < 2 ^ 64 }
        ensures rest { self.new ≡ record self.old { watch = self.new.watch } }
        ensures watched { (start : ℕ) (shape : Shape) (memory : FlatMemory) (before : List Record) →
            at ≡ length (of_log item.now.log before) → offset ≡ offset_after start before
            → StandsAfterAll shape memory (before ++ item.now ∷ []) self.old → NoneBroke shape memory before
            → IsWatch start shape memory (before ++ item.now ∷ []) self.new.watch }
        ensures known { IsKnown self.new.watch }
    {
        self.watch = match self.broke_upon(item) {
            Some(fault) => {
                let log = item.log();
                let upon = Upon { log, at, offset };
                Watch::First(FirstBreak { fault, upon })
            }
            None => Watch::Whole {
                next: offset + view_len(item),
            },
        };
    }
}
