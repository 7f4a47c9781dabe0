//! The logs of a trace, kept while their records come.

ghost use Rattle.std.specs.Prelude.{◌≡◌, ◌<◌, ℕ, List, [], ◌∷◌, ◌++◌, length, slice_index_or, IfSome, IfNone, OnOk};
ghost use Rattle.std.specs.Prelude.{IsTrue};
ghost use Rattle.std.specs.List.{sum_by};
ghost use Rattle.lf_rules.specs.declared.shape.Shape.{Shape};
ghost use Rattle.lf_rules.specs.declared.event.Record.{Record};
ghost use Rattle.lf_rules.specs.Address.{FlatMemory};
ghost use Rattle.lf_rules.specs.Order.{log_at};
ghost use Rattle.lf_rules.specs.Run.{of_log};
ghost use Rattle.lf_join.specs.Progress.{with_entry};
ghost use Rattle.lf_verdict.specs.Breaking.{IsFaultOfPart};
ghost use Rattle.lf_verdict.specs.inner.Noting.{IsPortWhole, IsOfPort};
ghost use Rattle.lf_verdict.specs.inner.Coming.{MayCome, CanEnterAll, EntersAll, CanEnter, HasLog, AreAllKept};
ghost use Rattle.lf_verdict.specs.Standing.{AreKept, AreEntered};

use crate::session::breaking::PartFault;
use crate::session::standing::port_judge::PortJudge;
use lf_codec::Packed;
use lf_join::{Progress, entries_stay};
use lf_rules::{NoMemory, Outcome, Skeleton};
use trace_views::RecordView;

/// Each log's entries so far, and how each port stands. No bank is among them, so that records can be
/// entered while the banks are judged.
#[derive(Drop)]
pub struct Entries {
    /// The entries of each log that are kept.
    pub logs: Vec<Skeleton>,
    /// How far the logs went with the entries that are not kept.
    pub progress: Progress,
    /// Whether every entry is kept, so that an order can be told.
    pub keeps: bool,
    pub ports: Vec<PortJudge>,
}

impl Entries {
    /// How many records of the log came.
    fn len_of(&self, log: u8) -> usize
        requires { HasLog log self.now }
        ensures { (skeletons : List (List (ℕ × ℕ))) → AreKept skeletons self.now →
            result ≡ length (log_at skeletons log) }
    {
        self.progress.gone(log) + self.logs[usize::from(log)].len()
    }

    /// The place in its log at which the next record will stand.
    pub fn place_of(&self, item: &RecordView<'_>) -> u32
        requires { CanEnter item.now self.now }
        ensures { (shape : Shape) (records : List Record) → MayCome shape records item.now →
            AreEntered shape records self.now
            → result ≡ length (of_log item.now.log records) }
    {
        self.len_of(item.log()) as u32
    }

    /// The fault of the port, where the log is a port's and the port broke a rule.
    pub fn port_fault(&self, log: u8) -> Option<PartFault>
        ensures some { (shape : Shape) (records : List Record) → AreEntered shape records self.now
            → IfSome result (λ fault. (memory : FlatMemory) → IsFaultOfPart shape memory records fault) }
        ensures none { (shape : Shape) (records : List Record) → AreEntered shape records self.now
            → IfNone result ((memory : FlatMemory) → IsPortWhole shape memory records log) }
        ensures port { IfSome result (IsOfPort log) }
    {
        let port = usize::from(log);
        if port >= self.ports.len() {
            return None;
        }
        match self.ports[port].outcome {
            Outcome::Broken(at, rule) => Some(PartFault::Port {
                port: log,
                at,
                rule,
            }),
            _ => None,
        }
    }

    /// How many records came.
    pub fn count(&self) -> u32
        requires { (skeletons : List (List (ℕ × ℕ))) × AreAllKept skeletons self.now }
        ensures { (skeletons : List (List (ℕ × ℕ))) → AreAllKept skeletons self.now → result ≡ sum_by length skeletons }
    {
        let mut count = 0;
        for log in 0..self.logs.len() {
            count += self.len_of(log as u8) as u32;
        }
        count
    }

    /// Lets the entry go that comes next in the log, where it need not be kept and its turn has come.
    #[inline(always)]
    fn lets_go(&mut self, log: u8, entry: (u8, u32)) -> bool
        requires { HasLog log self.old }
        ensures rest { self.new ≡ record self.old { progress = self.new.progress } }
        ensures stays { ¬ IsTrue result → self.new ≡ self.old }
        ensures gone { IsTrue result → (skeletons : List (List (ℕ × ℕ))) → log < length skeletons →
            AreKept skeletons self.old → AreKept (with_entry skeletons log entry) self.new }
    {
        if self.keeps || !self.logs[usize::from(log)].is_empty() {
            return false;
        }
        self.progress.pass(log, entry)
    }

    /// Keeps the entry that comes next in the log, unless it goes.
    #[inline(always)]
    fn keep(&mut self, log: u8, entry: (u8, u32)) -> Result<(), NoMemory>
        requires { HasLog log self.old }
        ensures kept { (skeletons : List (List (ℕ × ℕ))) → log < length skeletons → AreKept skeletons self.old
            → OnOk result (AreKept (with_entry skeletons log entry) self.new) }
        ensures ports { self.new.ports ≡ self.old.ports }
        ensures keeps { self.new.keeps ≡ self.old.keeps }
    {
        entries_stay();
        if !self.lets_go(log, entry) {
            self.logs[usize::from(log)].push(entry)?;
        }
        Ok(())
    }

    /// Keeps the entry of the next record, and judges it by its port where it stands in a port's log.
    #[inline(always)]
    pub fn enter(&mut self, item: &RecordView<'_>) -> Result<(), NoMemory>
        requires { CanEnter item.now self.old }
        ensures entered { (shape : Shape) (records : List Record) → MayCome shape records item.now →
            AreEntered shape records self.old
            → OnOk result (AreEntered shape (records ++ item.now ∷ []) self.new) }
        ensures keeps { self.new.keeps ≡ self.old.keeps }
    {
        let at = self.place_of(item);
        let log = item.log();
        self.keep(log, (item.bank(), item.number()))?;
        let port = usize::from(log);
        if port < self.ports.len() {
            self.ports[port].take(at, item);
        }
        Ok(())
    }

    /// Enters the record at this place. It is lent only where a port judges it.
    fn enter_at(&mut self, records: &Packed, at: usize) -> Result<(), NoMemory>
        requires within { at < length records.now.records }
        requires next { (item : Record) ×
            ((item ≡ slice_index_or records.now.records at item) × CanEnter item self.old) }
        ensures entered { (shape : Shape) (before : List Record) (item : Record) →
            item ≡ slice_index_or records.now.records at item
            → MayCome shape before item → AreEntered shape before self.old
            → OnOk result (AreEntered shape (before ++ item ∷ []) self.new) }
        ensures keeps { self.new.keeps ≡ self.old.keeps }
    {
        let log = records.log(at);
        if usize::from(log) < self.ports.len() {
            let mut item = RecordView::blank();
            records.lend_view(at, &mut item);
            return self.enter(&item);
        }
        self.keep(log, (records.bank(at), records.number(at)))
    }

    /// Enters all records. Their banks need not have seen them.
    pub fn enter_all(&mut self, records: &Packed) -> Result<(), NoMemory>
        requires { CanEnterAll records.now.records self.old }
        ensures entered { EntersAll records.now.records self.old result self.new }
        ensures keeps { self.new.keeps ≡ self.old.keeps }
    {
        for at in 0..records.len() {
            self.enter_at(records, at)?;
        }
        Ok(())
    }
}
