//! What a session keeps that reads ahead of its judges.

ghost use Rattle.std.specs.Prelude.{◌≡◌, ◌<◌, ◌↔◌, ◌++◌, ℕ, List, [], Some, None, IsSome, IfSome, IfOk, OnOk};
ghost use Rattle.std.specs.Prelude.{true, IsTrue, IfNone};
ghost use Rattle.lf_rules.specs.InRange.{IsShape};
ghost use Rattle.lf_codec.specs.declared.fault.Told.TheVariants as tolds;
ghost use Rattle.lf_verdict.specs.declared.answer.Outcome.{Outcome};
ghost use Rattle.lf_verdict.specs.Conclusion.{IsConclusion};
ghost use Rattle.lf_verdict.specs.inner.Judged.{IsFound};
ghost use Rattle.lf_verdict.specs.Session.{CanTell, refusal_of, stop_told};
ghost use Rattle.lf_verdict.specs.inner.Fed.{HasTaken, HasFed, IsRunningNow, IsAsAsked, IsPlain};
ghost use Rattle.lf_verdict.specs.inner.Ahead.{session_of, IsAhead, CanRead, ReadsOn};
ghost use Rattle.lf_verdict.specs.inner.Workers.{AreWorkers};
ghost use Rattle.lf_verdict.specs.Final.{IsFinal};
ghost use Rattle.lf_verdict.specs.Named.{IsNamed, NoneBrokeSoFar};
ghost use Rattle.lf_verdict.specs.declared.stop.Stop.TheVariants as stops;
ghost use Rattle.lf_verdict.specs.inner.Taking.{running_before, IsSettled};

use crate::answer::Refusal;
use crate::fed::Fed;
use crate::session::asked::Asked;
use crate::session::breaking::Broken;
use crate::session::conclusion::Conclusion;
use crate::session::intake::{Intake, Judging};
use crate::session::share::judged;
use crate::session::standing::Standing;
use crate::session::workers::Workers;
use crate::stop::Stop;
use lf_codec::{Packed, Told, faults_stand, header_of_bytes, read_so_far};
use lf_pool::Gate;
use lf_rules::{NoMemory, Shape};
use std::alloc::Global;
use std::mem;
use std::thread::Threads;

/// So many batches are read ahead at most before the reader waits for the workers.
const MOST_BATCHES: usize = 4;

/// So many bytes are read before it is looked whether the workers are done.
const PART: usize = 16384;

/// A record has about so many bytes. This decides only from when on there are workers.
const BYTES_OF_A_RECORD: usize = 20;

/// What was fed so far. The last records are read and wait to be judged, and those before them may be with the
/// workers at work. They judge `batch` records or more at a time.
pub struct Ahead<G> {
    pub intake: Intake,
    pub workers: u32,
    pub batch: usize,
    /// So many bytes more are judged without workers: a trace that is shorter is not worth the threads.
    pub alone: usize,
    pub gate: G,
    pub records: Packed,
    pub at_work: Option<Workers>,
}

impl<G: Gate + Sync + Send + Copy + 'static> Ahead<G> {
    /// Nothing was fed yet.
    pub fn new(
        alloc: Global,
        shape: &Shape,
        workers: u32,
        batch: usize,
        gate: G,
        asked: Asked,
    ) -> Ahead<G>
        requires { IsShape shape.now }
        ensures shape { result.intake.shape ≡ shape.now }
        ensures asked { result.intake.asked ≡ asked }
        ensures fresh { result.intake.stop ≡ None }
        ensures fed { HasFed (session_of result) [] }
        ensures ahead { IsAhead result }
    {
        Ahead {
            intake: Intake::new(alloc, shape, asked),
            workers,
            batch,
            alone: batch.saturating_mul(BYTES_OF_A_RECORD),
            gate,
            records: Packed::new(alloc),
            at_work: None,
        }
    }

    /// How many threads judge the banks.
    fn threads(&self) -> usize
        ensures { 0 < result }
    {
        self.workers.max(1) as usize
    }

    /// Whether records may be judged together: not where it is asked upon which a part breaks first, or for counts.
    fn is_plain(&self) -> bool
        ensures { IsTrue result → IsPlain self.now.intake.asked }
    {
        !self.intake.asked.watched && !self.intake.asked.counted
    }

    /// Whether records are judged.
    fn is_running(&self) -> bool
        ensures { IsTrue result ↔ IsRunningNow (session_of self.now).judging }
    {
        if self.at_work.is_some() {
            return true;
        }
        matches!(&self.intake.judging, Judging::Running(_))
    }

    /// How the parts stand once the workers are done, and the room for other records.
    fn call_back<R: Threads>(&mut self, rt: &R) -> Result<(Standing, Packed), NoMemory>
        requires can { CanRead self.old }
        ensures rest { self.new ≡ record self.old {
          at_work = None;
          intake =
              record self.old.intake { judging = self.new.intake.judging };
        } }
        ensures none { IfOk result (λ r. r.1.records ≡ []) }
        ensures taken { (bytes : List ℕ) → HasTaken (session_of self.old) bytes
            → IfOk result (λ r. HasTaken (running_before r.0 self.old.records.records self.old.intake) bytes) }
    {
        read_so_far();
        match self.at_work.take() {
            Some(workers) => workers.end(rt),
            None => {
                let judging = mem::replace(&mut self.intake.judging, Judging::Waiting);
                let Judging::Running(standing) = judging else {
                    unreachable!()
                };
                Ok((standing, Packed::new(self.intake.alloc)))
            }
        }
    }

    /// How the parts stand, and the records that were read, to be judged next.
    fn next_batch<R: Threads>(&mut self, rt: &R) -> Result<(Standing, Packed), NoMemory>
        requires can { CanRead self.old }
        ensures rest { self.new ≡ record self.old {
          at_work = None;
          records = self.new.records;
          intake =
              record self.old.intake { judging = self.new.intake.judging };
        } }
        ensures none { OnOk result (self.new.records.records ≡ []) }
        ensures taken { (bytes : List ℕ) → HasTaken (session_of self.old) bytes
            → IfOk result (λ r. HasTaken (running_before r.0 r.1.records self.old.intake) bytes) }
    {
        let (standing, room) = self.call_back(rt)?;
        Ok((standing, mem::replace(&mut self.records, room)))
    }

    /// Has the records judged that were read, while the caller goes on.
    fn hand_over<R: Threads + Sync + Send + Copy + 'static>(
        &mut self,
        rt: &R,
    ) -> Result<(), NoMemory>
        requires can { CanRead self.old }
        ensures shape { self.new.intake.shape ≡ self.old.intake.shape }
        ensures asked { self.new.intake.asked ≡ self.old.intake.asked }
        ensures stop { self.new.intake.stop ≡ self.old.intake.stop }
        ensures running { OnOk result (IsRunningNow (session_of self.new).judging) }
        ensures workers { IfSome self.new.at_work AreWorkers }
        ensures taken { (bytes : List ℕ) → HasTaken (session_of self.old) bytes →
            OnOk result (HasTaken (session_of self.new) bytes) }
    {
        read_so_far();
        let (standing, records) = self.next_batch(rt)?;
        let (alloc, threads) = (self.intake.alloc, self.threads());
        let workers = Workers::begin(alloc, rt, threads, self.gate, standing, records)?;
        end(mem::replace(&mut self.at_work, Some(workers)));
        Ok(())
    }

    /// Judges all that was read.
    fn settle<R: Threads + Sync>(&mut self, rt: &R) -> Result<(), NoMemory>
        requires ahead { IsAhead self.old }
        requires going { self.old.intake.stop ≡ None }
        requires taken { (bytes : List ℕ) × HasTaken (session_of self.old) bytes }
        ensures shape { self.new.intake.shape ≡ self.old.intake.shape }
        ensures asked { self.new.intake.asked ≡ self.old.intake.asked }
        ensures stop { self.new.intake.stop ≡ self.old.intake.stop }
        ensures alone { self.new.at_work ≡ None }
        ensures as_asked { IsAsAsked self.new.intake }
        ensures settled { self.old.intake.asked.watched ≡ true → IsSettled self.new.intake }
        ensures none { OnOk result (self.new.records.records ≡ []) }
        ensures taken { (bytes : List ℕ) → HasTaken (session_of self.old) bytes →
            OnOk result (HasTaken self.new.intake bytes) }
    {
        if self.at_work.is_none() && self.records.is_empty() {
            return Ok(());
        }
        read_so_far();
        let (standing, records) = self.next_batch(rt)?;
        let standing = judged(rt, self.threads(), &self.gate, standing, &records)?;
        self.intake.judging = Judging::Running(standing);
        Ok(())
    }

    /// Whether the records that were read should be judged next: enough were read, and no thread judges others,
    /// or many were.
    fn is_due(&self) -> bool {
        let count = self.records.len();
        if count < self.batch {
            return false;
        }
        match &self.at_work {
            Some(workers) => workers.are_done() || count / MOST_BATCHES >= self.batch,
            None => true,
        }
    }

    /// Reads the piece, and hands over what was read where that is enough.
    fn read<R: Threads + Sync + Send + Copy + 'static>(
        &mut self,
        rt: &R,
        piece: &[u8],
    ) -> Result<(), Stop>
        requires can { CanRead self.old }
        ensures { ReadsOn self.old self.new piece.now result }
    {
        header_of_bytes();
        self.intake.reader.pack(piece, &mut self.records)?;
        if self.is_due() {
            self.hand_over(rt)?;
        }
        Ok(())
    }

    /// Reads the piece in short parts, so that the workers do not wait for long once they are done.
    fn read_in_parts<R: Threads + Sync + Send + Copy + 'static>(
        &mut self,
        rt: &R,
        piece: &[u8],
    ) -> Result<(), Stop>
        requires can { CanRead self.old }
        ensures { ReadsOn self.old self.new piece.now result }
    {
        faults_stand();
        let mut rest = piece;
        while !rest.is_empty() {
            let (part, behind) = rest.split_at(rest.len().min(PART));
            self.read(rt, part)?;
            rest = behind;
        }
        Ok(())
    }

    /// Stops for good, and tells why. No thread is left at work.
    fn stop_with<R: Threads>(&mut self, rt: &R, stop: Stop) -> Told<Refusal>
        ensures shape { self.new.intake.shape ≡ self.old.intake.shape }
        ensures asked { self.new.intake.asked ≡ self.old.intake.asked }
        ensures stopped { self.new.intake.stop ≡ Some stop }
        ensures told { result ≡ tolds.Fault (refusal_of stop) }
        ensures alone { self.new.at_work ≡ None }
    {
        if let Some(workers) = self.at_work.take() {
            workers.stop(rt);
        }
        self.intake.stop_with(stop)
    }

    /// Takes the next piece of the trace, where records are judged.
    fn feed_ahead<R: Threads + Sync + Send + Copy + 'static>(
        &mut self,
        rt: &R,
        piece: &[u8],
    ) -> Result<(), Told<Refusal>>
        requires can { CanRead self.old }
        requires going { self.old.intake.stop ≡ None }
        requires plain { IsPlain self.old.intake.asked }
        ensures ahead { IsAhead self.new }
        ensures shape { self.new.intake.shape ≡ self.old.intake.shape }
        ensures asked { self.new.intake.asked ≡ self.old.intake.asked }
        ensures fed { (bytes : List ℕ) → HasTaken (session_of self.old) bytes →
            HasFed (session_of self.new) (bytes ++ piece.now) }
        ensures told { result ≡ stop_told self.old.intake.stop self.new.intake.stop }
    {
        match self.read_in_parts(rt, piece) {
            Ok(()) => Ok(()),
            Err(stop) => Err(self.stop_with(rt, stop)),
        }
    }

    /// Takes the next piece of the trace, once all before it is judged.
    fn feed_alone<R: Threads + Sync>(&mut self, rt: &R, piece: &[u8]) -> Result<(), Told<Refusal>>
        requires ahead { IsAhead self.old }
        requires going { self.old.intake.stop ≡ None }
        requires taken { (bytes : List ℕ) × HasTaken (session_of self.old) bytes }
        ensures ahead { IsAhead self.new }
        ensures shape { self.new.intake.shape ≡ self.old.intake.shape }
        ensures asked { self.new.intake.asked ≡ self.old.intake.asked }
        ensures fed { (bytes : List ℕ) → HasTaken (session_of self.old) bytes →
            HasFed (session_of self.new) (bytes ++ piece.now) }
        ensures told { result ≡ stop_told self.old.intake.stop self.new.intake.stop }
    {
        match self.settle(rt) {
            Ok(()) => self.intake.feed(piece),
            Err(NoMemory) => Err(self.stop_with(rt, Stop::Memory)),
        }
    }

    /// Takes the next piece of the trace.
    pub fn feed<R: Threads + Sync + Send + Copy + 'static>(
        &mut self,
        rt: &R,
        piece: &[u8],
    ) -> Result<(), Told<Refusal>>
        requires fed { (bytes : List ℕ) × HasFed (session_of self.old) bytes }
        requires ahead { IsAhead self.old }
        ensures ahead { IsAhead self.new }
        ensures shape { self.new.intake.shape ≡ self.old.intake.shape }
        ensures asked { self.new.intake.asked ≡ self.old.intake.asked }
        ensures fed { (bytes : List ℕ) → HasFed (session_of self.old) bytes →
            HasFed (session_of self.new) (bytes ++ piece.now) }
        ensures told { result ≡ stop_told self.old.intake.stop self.new.intake.stop }
        ensures failed { IsSome self.old.intake.stop → self.new ≡ self.old }
    {
        faults_stand();
        if let Some(stop) = self.intake.stop {
            return Err(Told::Failed(Refusal::from(stop)));
        }
        if self.workers > 1 && self.alone == 0 && self.is_plain() && self.is_running() {
            return self.feed_ahead(rt, piece);
        }
        self.alone = self.alone.saturating_sub(piece.len());
        self.feed_alone(rt, piece)
    }

    /// What is answered of the bytes that were fed. No thread is left at work.
    pub fn conclude<R: Threads + Sync>(&mut self, rt: &R, fed: Fed) -> Conclusion
        requires fed { HasFed (session_of self.old) fed.bytes }
        requires ahead { IsAhead self.old }
        ensures fed { result.fed ≡ fed }
        ensures concluded { IsConclusion self.old.intake.asked self.old.intake.shape result }
        ensures stopped { IfSome self.old.intake.stop (λ stop. result.outcome ≡ Outcome.Refused (refusal_of stop)) }
        ensures alone { self.new.at_work ≡ None }
    {
        if let Some(_) = self.intake.stop {
            return self.intake.conclude(fed);
        }
        match self.settle(rt) {
            Ok(()) => self.intake.conclude(fed),
            Err(NoMemory) => Conclusion::without_memory(fed),
        }
    }

    /// What is final once all that was read is judged.
    fn named<R: Threads + Sync>(&mut self, rt: &R) -> Result<Option<Broken>, NoMemory>
        requires ahead { IsAhead self.old }
        requires going { self.old.intake.stop ≡ None }
        requires taken { (bytes : List ℕ) × HasTaken (session_of self.old) bytes }
        ensures shape { self.new.intake.shape ≡ self.old.intake.shape }
        ensures asked { self.new.intake.asked ≡ self.old.intake.asked }
        ensures stop { self.new.intake.stop ≡ self.old.intake.stop }
        ensures alone { self.new.at_work ≡ None }
        ensures as_asked { IsAsAsked self.new.intake }
        ensures ready { OnOk result (self.new.records.records ≡ []) }
        ensures taken { (bytes : List ℕ) → HasTaken (session_of self.old) bytes →
            OnOk result (HasTaken self.new.intake bytes) }
        ensures stands { (bytes : List ℕ) → HasTaken (session_of self.old) bytes
            → IfOk result (λ found. IfSome found (IsFinal self.old.intake.shape bytes)) }
        ensures named { (bytes : List ℕ) → HasTaken (session_of self.old) bytes
            → IfOk result (λ found. IfSome found (IsNamed self.old.intake.shape bytes)) }
        ensures none { (bytes : List ℕ) → HasTaken (session_of self.old) bytes
            → IfOk result (λ found. IfNone found (NoneBrokeSoFar self.old.intake.shape bytes)) }
    {
        self.settle(rt)?;
        self.intake.named()
    }

    /// What is final for the bytes that were fed, once all of them are judged. Where memory runs out, it stops for
    /// good.
    pub fn broken<R: Threads + Sync>(&mut self, rt: &R) -> Option<Broken>
        requires fed { (bytes : List ℕ) × HasFed (session_of self.old) bytes }
        requires ahead { IsAhead self.old }
        ensures ahead { IsAhead self.new }
        ensures shape { self.new.intake.shape ≡ self.old.intake.shape }
        ensures asked { self.new.intake.asked ≡ self.old.intake.asked }
        ensures fed { (bytes : List ℕ) → HasFed (session_of self.old) bytes → HasFed (session_of self.new) bytes }
        ensures failed { IsSome self.old.intake.stop → self.new ≡ self.old }
        ensures memory { self.old.intake.stop ≡ None → IfSome self.new.intake.stop (λ stop. stop ≡ stops.Memory) }
        ensures silent { ¬ CanTell self.old.intake.asked self.new.intake.stop → result ≡ None }
        ensures watched { self.old.intake.asked.watched ≡ true → self.new ≡ self.old }
        ensures found { (bytes : List ℕ) → HasFed (session_of self.old) bytes
            → IsFound self.old.intake.asked self.old.intake.shape bytes self.new.intake.stop result }
    {
        if self.intake.asked.watched {
            return self.intake.broken();
        }
        let None = self.intake.stop else {
            return None;
        };
        match self.named(rt) {
            Ok(found) => found,
            Err(NoMemory) => {
                let _ = self.stop_with(rt, Stop::Memory);
                None
            }
        }
    }

    /// Ends it, where no thread is at work.
    pub fn end(self)
        requires { self.at_work ≡ None }
    {
        let Ahead {
            intake: _,
            workers: _,
            batch: _,
            alone: _,
            gate: _,
            records: _,
            at_work,
        } = self;
        end(at_work);
    }
}

/// No worker is there.
fn end(at_work: Option<Workers>)
    requires { at_work ≡ None }
{
    match at_work {
        None => {}
        Some(_workers) => unreachable!(),
    }
}
