//! What a session keeps of the bytes that it was fed.

ghost use Rattle.std.specs.Prelude.{◌≡◌, ◌<◌, ◌++◌, ℕ, List, [], Some, None, IsSome, IfSome, IfNone, IfOk, Ok, OnOk};
ghost use Rattle.std.specs.Prelude.{◌≤◌, ◌↔◌, Bool, true, IsTrue, length, take, OnErr, Err};
ghost use Rattle.lf_rules.specs.InRange.{IsShape};
ghost use Rattle.lf_verdict.specs.inner.Judged.{IsJudged, TellsFirst};
ghost use Rattle.lf_verdict.specs.Conclusion.{IsConclusion};
ghost use Rattle.lf_verdict.specs.Outcome.{IsYesOutcome};
ghost use Rattle.lf_verdict.specs.Standing.{Counts, IsKnown};
ghost use Rattle.lf_verdict.specs.Named.{IsNamed, NoneBrokeSoFar};
ghost use Rattle.lf_verdict.specs.Final.{IsFinal, IsEarliest};
ghost use Rattle.lf_verdict.specs.Session.{CanTell, refusal_of, stop_told};
ghost use Rattle.lf_verdict.specs.inner.Fed.{IsRunning, HasTaken, IsAsAsked, HasFed, HasFedUntil};
ghost use Rattle.lf_verdict.specs.Session.{IsOfAnotherHeader, HeaderAgrees};
ghost use Rattle.lf_verdict.specs.inner.Fed.{IsCounting};
ghost use Rattle.lf_verdict.specs.inner.Taking.{IsLackingIf, IsDrained, IsSettled, CanJudge, RunsOn, Begins};
ghost use Rattle.lf_verdict.specs.inner.Taking.{answer_of, bytes_taken, TakesSome};
ghost use Rattle.lf_codec.specs.Reader.{CanLend};
ghost use Rattle.lf_verdict.specs.declared.session.intake.Judging.TheVariants.{Waiting};
ghost use Rattle.lf_rules.specs.declared.shape.Shape.{Shape};
ghost use Rattle.lf_rules.specs.declared.event.Record.{Record};
ghost use Rattle.lf_rules.specs.Fits.{Bytes};
ghost use Rattle.lf_codec.specs.Reader.{HasRead};
ghost use Rattle.lf_codec.specs.declared.fault.Told.TheVariants as tolds;

use crate::answer::{HeaderField, Outcome, Refusal};
use crate::fed::Fed;
use crate::header::{differing, first_offset};
use crate::laws::{no_has_no_run, other_headers_are_final, part_faults_are_final, yes_is_legal};
use crate::session::asked::Asked;
use crate::session::breaking::Broken;
use crate::session::conclusion::Conclusion;
use crate::session::standing::{Judged, Standing};
use crate::stop::Stop;
use lf_codec::{Reader, Told, exact_reading, faults_stand, header_of_bytes, read_so_far};
use lf_rules::{Memory, NoMemory, Shape};
use std::alloc::Global;
use trace_views::RecordView;

/// How far the judging is.
#[derive(Drop)]
pub enum Judging {
    /// The header and the memory are not whole yet.
    Waiting,
    Running(Standing),
    /// The trace is of another hierarchy: its format alone is judged further.
    Another(HeaderField),
}

/// What was fed so far, judged as far as that can be.
#[derive(Drop)]
pub struct Intake {
    pub alloc: Global,
    pub shape: Shape,
    pub reader: Reader,
    pub memory: Memory,
    pub judging: Judging,
    pub stop: Option<Stop>,
    pub asked: Asked,
}

/// Takes the memory records that the reader has found, so that it need not keep them.
fn discard_memory(reader: &mut Reader)
    ensures rest { reader.new ≡ record reader.old { memory = [] } }
    ensures read { (bytes : List ℕ) (memory : List (ℕ × Bytes)) (records : List Record) →
        HasRead reader.old bytes memory records
        → (more : List (ℕ × Bytes)) × HasRead reader.new bytes more records }
{
    while reader.take_memory().is_some() {}
}

/// Takes the records that the reader has found, so that it need not keep them.
fn discard_records(reader: &mut Reader)
    ensures rest { reader.new ≡ record reader.old { records = [] } }
    ensures read { (bytes : List ℕ) (memory : List (ℕ × Bytes)) (records : List Record) →
        HasRead reader.old bytes memory records
        → (more : List Record) × HasRead reader.new bytes memory more }
{
    while reader.take().is_some() {}
}

/// Judges the records that the reader has found.
fn judge_records(reader: &mut Reader, standing: &mut Standing) -> Result<(), NoMemory>
    requires { CanJudge reader.old standing.old }
    ensures judged { (shape : Shape) (ordered : Bool) (bytes : List ℕ) (memory : List (ℕ × Bytes))
        (records : List Record) → HasRead reader.old bytes memory records
        → IsRunning shape ordered bytes memory records standing.old
        → OnOk result ((more : List Record) × (HasRead reader.new bytes memory more ×
        IsRunning shape ordered bytes memory more standing.new)) }
    ensures fault { reader.new.fault ≡ reader.old.fault }
    ensures drained { OnOk result (reader.new.records ≡ []) }
    ensures known { IsKnown standing.old.watch → IsKnown standing.new.watch }
    ensures counts { Counts standing.old → Counts standing.new }
{
    read_so_far();
    while let Some(item) = reader.take() {
        standing.take(&RecordView::of(&item), &[])?;
    }
    Ok(())
}

/// Judges one record after another where they stand whole at the front of the bytes, and says how many bytes they
/// have. It is apart, so that nothing else is compiled into its loop.
#[inline(never)]
fn judge_run(reader: &mut Reader, standing: &mut Standing, bytes: &[u8]) -> Result<usize, NoMemory>
    requires can { CanJudge reader.old standing.old }
    requires lends { CanLend reader.old }
    ensures few { IfOk result (λ n. n ≤ length bytes.now) }
    ensures judged { IfOk result (λ n. RunsOn reader.old standing.old (take n bytes.now) reader.new standing.new) }
    ensures fault { reader.new.fault ≡ reader.old.fault }
    ensures known { IsKnown standing.old.watch → IsKnown standing.new.watch }
    ensures counts { Counts standing.old → Counts standing.new }
{
    read_so_far();
    header_of_bytes();
    let mut view = RecordView::blank();
    let mut at = 0;
    while let Some(n) = reader.lend(&bytes[at..], &mut view) {
        standing.take(&view, &bytes[at..at + n])?;
        at += n;
    }
    Ok(at)
}

impl Intake {
    /// Nothing was fed yet.
    pub fn new(alloc: Global, shape: &Shape, asked: Asked) -> Intake
        requires { IsShape shape.now }
        ensures shape { result.shape ≡ shape.now }
        ensures asked { result.asked ≡ asked }
        ensures fresh { result.stop ≡ None }
        ensures fed { HasFed result [] }
        ensures as_asked { IsAsAsked result }
        ensures settled { IsSettled result }
    {
        Intake {
            alloc,
            shape: *shape,
            reader: Reader::new(alloc),
            memory: Vec::new(alloc),
            judging: Judging::Waiting,
            stop: None,
            asked,
        }
    }

    /// Stops for good, and tells why.
    pub fn stop_with(&mut self, stop: Stop) -> Told<Refusal>
        ensures stopped { self.new ≡ record self.old { stop = Some stop } }
        ensures told { result ≡ tolds.Fault (refusal_of stop) }
    {
        self.stop = Some(stop);
        Told::Fault(Refusal::from(stop))
    }

    /// Whether it can be told what broke.
    fn can_tell(&self) -> bool
        ensures { IsTrue result ↔ CanTell self.now.asked self.now.stop }
    {
        match self.stop {
            None => true,
            Some(Stop::Format(_)) => self.asked.watched,
            Some(Stop::Memory) => false,
        }
    }

    /// Stops for good, and tells why. What stands before a fault of the format is judged, where it is asked what broke
    /// first.
    fn stop_at(&mut self, stop: Stop) -> Told<Refusal>
        requires { (bytes : List ℕ) × HasFedUntil (record self.old { stop = Some stop }) bytes (Some stop) }
        ensures shape { self.new.shape ≡ self.old.shape }
        ensures asked { self.new.asked ≡ self.old.asked }
        ensures fed { (bytes : List ℕ) → HasFedUntil (record self.old { stop = Some stop }) bytes (Some stop)
            → HasFed self.new bytes }
        ensures told { Err result ≡ stop_told None self.new.stop }
        ensures as_asked { IsAsAsked self.old → IsAsAsked self.new }
        ensures settled { IsSettled self.new }
    {
        let told = self.stop_with(stop);
        if !self.can_tell() {
            return told;
        }
        match self.take_all() {
            Ok(()) => told,
            Err(NoMemory) => self.stop_with(Stop::Memory),
        }
    }

    /// Takes the memory records that the reader has found.
    fn take_memory(&mut self) -> Result<(), NoMemory>
        requires { self.old.judging ≡ Waiting }
        ensures shape { self.new.shape ≡ self.old.shape }
        ensures asked { self.new.asked ≡ self.old.asked }
        ensures stop { self.new.stop ≡ self.old.stop }
        ensures taken { (bytes : List ℕ) → HasTaken self.old bytes → OnOk result (HasTaken self.new bytes) }
        ensures waiting { self.new.judging ≡ Waiting }
        ensures none { OnOk result (self.new.reader.memory ≡ []) }
    {
        while let Some(item) = self.reader.take_memory() {
            self.memory.push(item)?;
        }
        Ok(())
    }

    /// Takes what the reader gives, and judges the records.
    fn take_all(&mut self) -> Result<(), NoMemory>
        requires { (bytes : List ℕ) × HasTaken self.old bytes }
        ensures shape { self.new.shape ≡ self.old.shape }
        ensures asked { self.new.asked ≡ self.old.asked }
        ensures stop { self.new.stop ≡ self.old.stop }
        ensures taken { (bytes : List ℕ) → HasTaken self.old bytes → OnOk result (HasTaken self.new bytes) }
        ensures drained { OnOk result (IsDrained self.new.judging self.new.reader self.new.memory.items) }
        ensures as_asked { IsAsAsked self.old → IsAsAsked self.new }
    {
        self.prepare()?;
        self.judge()
    }

    /// Takes the memory and begins to judge, where that has not begun.
    fn prepare(&mut self) -> Result<(), NoMemory>
        requires { (bytes : List ℕ) × HasTaken self.old bytes }
        ensures shape { self.new.shape ≡ self.old.shape }
        ensures asked { self.new.asked ≡ self.old.asked }
        ensures stop { self.new.stop ≡ self.old.stop }
        ensures taken { (bytes : List ℕ) → HasTaken self.old bytes → OnOk result (HasTaken self.new bytes) }
        ensures lacking { OnOk result (IsLackingIf self.new.judging self.new.reader self.new.memory.items) }
        ensures as_asked { IsAsAsked self.old → IsAsAsked self.new }
    {
        let Judging::Waiting = self.judging else {
            return Ok(());
        };
        self.take_memory()?;
        self.open()
    }

    /// Judges the records that the reader has found.
    fn judge(&mut self) -> Result<(), NoMemory>
        requires taken { (bytes : List ℕ) × HasTaken self.old bytes }
        requires lacking { IsLackingIf self.old.judging self.old.reader self.old.memory.items }
        ensures shape { self.new.shape ≡ self.old.shape }
        ensures asked { self.new.asked ≡ self.old.asked }
        ensures stop { self.new.stop ≡ self.old.stop }
        ensures taken { (bytes : List ℕ) → HasTaken self.old bytes → OnOk result (HasTaken self.new bytes) }
        ensures drained { OnOk result (IsDrained self.new.judging self.new.reader self.new.memory.items) }
        ensures as_asked { IsAsAsked self.old → IsAsAsked self.new }
    {
        match &mut self.judging {
            Judging::Waiting => Ok(()),
            Judging::Another(_) => {
                discard_memory(&mut self.reader);
                discard_records(&mut self.reader);
                Ok(())
            }
            Judging::Running(standing) => judge_records(&mut self.reader, standing),
        }
    }

    /// Begins to judge once the header and the memory are whole.
    fn open(&mut self) -> Result<(), NoMemory>
        requires taken { (bytes : List ℕ) × HasTaken self.old bytes }
        requires waiting { self.old.judging ≡ Waiting }
        requires none { self.old.reader.memory ≡ [] }
        ensures shape { self.new.shape ≡ self.old.shape }
        ensures asked { self.new.asked ≡ self.old.asked }
        ensures stop { self.new.stop ≡ self.old.stop }
        ensures taken { (bytes : List ℕ) → HasTaken self.old bytes → OnOk result (HasTaken self.new bytes) }
        ensures lacking { OnOk result (IsLackingIf self.new.judging self.new.reader self.new.memory.items) }
        ensures as_asked { IsAsAsked self.old → IsAsAsked self.new }
    {
        read_so_far();
        let Some(header) = self.reader.header() else {
            return Ok(());
        };
        if let Some(field) = differing(&self.shape, header) {
            self.memory = Vec::new(self.alloc);
            self.judging = Judging::Another(field);
            return Ok(());
        }
        if self.memory.len() as u64 == u64::from(header.memory_count) {
            return self.begin(first_offset(&header));
        }
        Ok(())
    }

    /// Judges from here on. The first record begins at `start`. It is apart, since its frame is large, and `open` is
    /// called for each memory record.
    #[inline(never)]
    fn begin(&mut self, start: u64) -> Result<(), NoMemory>
        requires { IsShape self.old.shape }
        ensures begun { OnOk result (Begins self.old start self.new) }
        ensures refused { OnErr result (self.new ≡ self.old) }
    {
        let standing = Standing::new(self.alloc, &self.shape, &self.memory, start, self.asked)?;
        self.judging = Judging::Running(standing);
        Ok(())
    }

    /// Takes the next piece of the trace.
    pub fn feed(&mut self, piece: &[u8]) -> Result<(), Told<Refusal>>
        requires { (bytes : List ℕ) × HasFed self.old bytes }
        ensures shape { self.new.shape ≡ self.old.shape }
        ensures asked { self.new.asked ≡ self.old.asked }
        ensures fed { (bytes : List ℕ) → HasFed self.old bytes → HasFed self.new (bytes ++ piece.now) }
        ensures told { result ≡ stop_told self.old.stop self.new.stop }
        ensures failed { IsSome self.old.stop → self.new ≡ self.old }
        ensures as_asked { IsAsAsked self.old → IsAsAsked self.new }
        ensures settled { IsSettled self.old → IsSettled self.new }
    {
        faults_stand();
        if let Some(stop) = self.stop {
            return Err(Told::Failed(Refusal::from(stop)));
        }
        let mut at = 0;
        while at < piece.len() {
            match self.feed_part(&piece[at..]) {
                Ok(n) => at += n,
                Err(told) => return Err(told),
            }
        }
        Ok(())
    }

    /// Takes what these bytes have of the next step, and judges what that gives.
    #[inline(never)]
    fn feed_step(&mut self, bytes: &[u8]) -> Result<usize, Told<Refusal>>
        requires fed { (fed : List ℕ) × HasFed self.old fed }
        requires going { self.old.stop ≡ None }
        ensures shape { self.new.shape ≡ self.old.shape }
        ensures asked { self.new.asked ≡ self.old.asked }
        ensures some { IfOk result (TakesSome bytes.now) }
        ensures fed { (fed : List ℕ) → HasFed self.old fed → HasFed self.new (fed ++ bytes_taken result bytes.now) }
        ensures told { answer_of result ≡ stop_told self.old.stop self.new.stop }
        ensures as_asked { IsAsAsked self.old → IsAsAsked self.new }
        ensures settled { IsSettled self.new }
    {
        header_of_bytes();
        faults_stand();
        let n = bytes.len().min(self.reader.lacks());
        if let Err(told) = self.reader.feed(&bytes[..n]) {
            return Err(self.stop_at(Stop::from(told)));
        }
        match self.take_all() {
            Ok(()) => Ok(n),
            Err(NoMemory) => Err(self.stop_with(Stop::Memory)),
        }
    }

    /// Judges the records that stand whole at the front of the bytes, while records are judged, and says how many bytes
    /// they have.
    fn feed_run(&mut self, bytes: &[u8]) -> Result<usize, Told<Refusal>>
        requires fed { (fed : List ℕ) × HasFed self.old fed }
        requires going { self.old.stop ≡ None }
        ensures shape { self.new.shape ≡ self.old.shape }
        ensures asked { self.new.asked ≡ self.old.asked }
        ensures few { IfOk result (λ n. n ≤ length bytes.now) }
        ensures fed { (fed : List ℕ) → HasFed self.old fed → HasFed self.new (fed ++ bytes_taken result bytes.now) }
        ensures told { answer_of result ≡ stop_told self.old.stop self.new.stop }
        ensures as_asked { IsAsAsked self.old → IsAsAsked self.new }
        ensures settled { OnErr result (IsSettled self.new) }
    {
        if !self.reader.can_lend() {
            return Ok(0);
        }
        let Judging::Running(standing) = &mut self.judging else {
            return Ok(0);
        };
        match judge_run(&mut self.reader, standing, bytes) {
            Ok(n) => Ok(n),
            Err(NoMemory) => Err(self.stop_with(Stop::Memory)),
        }
    }

    /// Takes the front of the bytes: the records that stand whole there, while records are judged, and what there is of
    /// the next step.
    fn feed_part(&mut self, bytes: &[u8]) -> Result<usize, Told<Refusal>>
        requires fed { (fed : List ℕ) × HasFed self.old fed }
        requires going { self.old.stop ≡ None }
        ensures shape { self.new.shape ≡ self.old.shape }
        ensures asked { self.new.asked ≡ self.old.asked }
        ensures some { IfOk result (TakesSome bytes.now) }
        ensures fed { (fed : List ℕ) → HasFed self.old fed → HasFed self.new (fed ++ bytes_taken result bytes.now) }
        ensures told { answer_of result ≡ stop_told self.old.stop self.new.stop }
        ensures as_asked { IsAsAsked self.old → IsAsAsked self.new }
        ensures settled { IsSettled self.new }
    {
        let n = match self.feed_run(bytes) {
            Ok(n) => n,
            Err(told) => return Err(told),
        };
        match self.feed_step(&bytes[n..]) {
            Ok(more) => Ok(n + more),
            Err(told) => Err(told),
        }
    }

    /// What is answered of the bytes that were fed, as those of a whole trace, once what came is judged.
    fn judged(&mut self) -> Judged
        requires going { self.old.stop ≡ None }
        requires taken { (bytes : List ℕ) × HasTaken self.old bytes }
        requires drained { IsDrained self.old.judging self.old.reader self.old.memory.items }
        ensures judged { (bytes : List ℕ) → HasTaken self.old bytes → IsJudged self.old.shape bytes result }
        ensures ordered { self.old.asked.ordered ≡ true → IsYesOutcome result.outcome → IsSome result.order }
        ensures counted { IsCounting self.old.judging → IsYesOutcome result.outcome → IsSome result.statistics }
    {
        exact_reading();
        if let Err(told) = self.reader.finish() {
            return Judged::of(Outcome::Refused(Refusal::from(Stop::from(told))));
        }
        match &mut self.judging {
            Judging::Waiting => unreachable!(),
            Judging::Another(field) => Judged::of(Outcome::Refused(Refusal::Header(*field))),
            Judging::Running(standing) => standing.judged(self.alloc),
        }
    }

    /// What broke first in the bytes that were fed, where that is asked for and can be told.
    fn first_broken(&self) -> Option<Broken>
        requires fed { (bytes : List ℕ) × HasFed self.now bytes }
        requires as_asked { CanTell self.now.asked self.now.stop → IsAsAsked self.now }
        requires settled { self.now.asked.watched ≡ true → IsSettled self.now }
        ensures { (bytes : List ℕ) → HasFed self.now bytes
            → TellsFirst self.now.asked self.now.shape bytes self.now.stop result }
    {
        if self.asked.watched {
            return self.broken();
        }
        None
    }

    /// What is answered of the bytes that were fed.
    pub fn conclude(&mut self, fed: Fed) -> Conclusion
        requires fed { HasFed self.old fed.bytes }
        requires as_asked { CanTell self.old.asked self.old.stop → IsAsAsked self.old }
        requires settled { self.old.asked.watched ≡ true → IsSettled self.old }
        ensures fed { result.fed ≡ fed }
        ensures concluded { IsConclusion self.old.asked self.old.shape result }
        ensures stopped { IfSome self.old.stop (λ stop. result.outcome ≡ Outcome.Refused (refusal_of stop)) }
    {
        exact_reading();
        yes_is_legal();
        no_has_no_run();
        if let Some(stop) = self.stop {
            let before = self.first_broken();
            return Conclusion::refused(fed, Refusal::from(stop), before);
        }
        if let Err(NoMemory) = self.take_all() {
            return Conclusion::without_memory(fed);
        }
        let broken = self.first_broken();
        let Judged {
            outcome,
            order,
            incomplete,
            statistics,
        } = self.judged();
        Conclusion {
            fed,
            outcome,
            order,
            broken,
            incomplete,
            statistics,
        }
    }

    /// In which field the header differs, where it is there and of another hierarchy.
    fn other_header(&self) -> Option<HeaderField>
        ensures other { (bytes : List ℕ) → HasTaken self.now bytes →
            IfSome result (IsOfAnotherHeader self.now.shape bytes) }
        ensures none { (bytes : List ℕ) → HasTaken self.now bytes → IfNone result (HeaderAgrees self.now.shape bytes) }
    {
        match self.reader.header() {
            Some(header) => differing(&self.shape, header),
            None => None,
        }
    }

    /// What is final for the bytes that were fed, where something is. Where the records were judged one after another
    /// the record is named.
    pub fn broken(&self) -> Option<Broken>
        requires { (bytes : List ℕ) × HasFed self.now bytes }
        ensures stands { (bytes : List ℕ) → HasFed self.now bytes → IfSome result (IsFinal self.now.shape bytes) }
        ensures earliest { (CanTell self.now.asked self.now.stop → IsAsAsked self.now) → self.now.asked.watched ≡ true
            → (bytes : List ℕ) → HasFed self.now bytes → IfSome result (IsEarliest self.now.shape bytes) }
        ensures none { IsSettled self.now → CanTell self.now.asked self.now.stop → (bytes : List ℕ)
            → HasFed self.now bytes → IfNone result (NoneBrokeSoFar self.now.shape bytes) }
        ensures silent { ¬ CanTell self.now.asked self.now.stop → result ≡ None }
    {
        read_so_far();
        part_faults_are_final();
        other_headers_are_final();
        if !self.can_tell() {
            return None;
        }
        match &self.judging {
            Judging::Waiting => Some(Broken::Header(self.other_header()?)),
            Judging::Another(field) => Some(Broken::Header(*field)),
            Judging::Running(standing) => standing.broken(),
        }
    }

    /// What is final for the bytes that were fed, where all of them are judged and something is. It is named without a
    /// record.
    fn at_fault(&self) -> Option<Broken>
        requires taken { (bytes : List ℕ) × HasTaken self.now bytes }
        requires drained { IsDrained self.now.judging self.now.reader self.now.memory.items }
        ensures stands { (bytes : List ℕ) → HasTaken self.now bytes → IfSome result (IsFinal self.now.shape bytes) }
        ensures named { (bytes : List ℕ) → HasTaken self.now bytes → IfSome result (IsNamed self.now.shape bytes) }
        ensures none { (bytes : List ℕ) → HasTaken self.now bytes →
            IfNone result (NoneBrokeSoFar self.now.shape bytes) }
    {
        read_so_far();
        part_faults_are_final();
        other_headers_are_final();
        match &self.judging {
            Judging::Waiting => Some(Broken::Header(self.other_header()?)),
            Judging::Another(other) => Some(Broken::Header(*other)),
            Judging::Running(standing) => match standing.at_fault() {
                Some(fault) => Some(Broken::Part { fault, upon: None }),
                None => None,
            },
        }
    }

    /// What is final for the bytes that were fed, once all of them are judged. It is named without a record.
    pub fn named(&mut self) -> Result<Option<Broken>, NoMemory>
        requires { (bytes : List ℕ) × HasTaken self.old bytes }
        ensures shape { self.new.shape ≡ self.old.shape }
        ensures asked { self.new.asked ≡ self.old.asked }
        ensures stop { self.new.stop ≡ self.old.stop }
        ensures as_asked { IsAsAsked self.old → IsAsAsked self.new }
        ensures taken { (bytes : List ℕ) → HasTaken self.old bytes → OnOk result (HasTaken self.new bytes) }
        ensures stands { (bytes : List ℕ) → HasTaken self.old bytes
            → IfOk result (λ found. IfSome found (IsFinal self.old.shape bytes)) }
        ensures named { (bytes : List ℕ) → HasTaken self.old bytes
            → IfOk result (λ found. IfSome found (IsNamed self.old.shape bytes)) }
        ensures none { (bytes : List ℕ) → HasTaken self.old bytes
            → IfOk result (λ found. IfNone found (NoneBrokeSoFar self.old.shape bytes)) }
    {
        self.take_all()?;
        Ok(self.at_fault())
    }
}
