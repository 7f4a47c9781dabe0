//! The verdict of a trace, judged by several workers while its bytes come.

ghost use Rattle.std.specs.Prelude.{◌≡◌, ◌++◌, true, false, [], None, IfErr, IfSome, IfNone, IsSome, OnOk};
ghost use Rattle.lf_rules.specs.InRange.{IsShape};
ghost use Rattle.lf_codec.specs.Reader.{fault_in};
ghost use Rattle.lf_codec.specs.Reading.{fault_so_far};
ghost use Rattle.lf_verdict.specs.declared.answer.Outcome.{Outcome};
ghost use Rattle.lf_verdict.specs.Conclusion.{IsConclusion};
ghost use Rattle.lf_verdict.specs.Final.{IsFinal, IsEarliest};
ghost use Rattle.lf_verdict.specs.Named.{IsNamed, NoneBrokeSoFar};
ghost use Rattle.lf_verdict.specs.Session.{CanTell, refusal_of, stop_told, IsRefusalSoFar};
ghost use Rattle.lf_verdict.specs.declared.stop.Stop.TheVariants as stops;

use crate::answer::Refusal;
use crate::fed::Fed;
use crate::session::ahead::Ahead;
use crate::session::asked::Asked;
use crate::session::breaking::Broken;
use crate::session::conclusion::Conclusion;
use lf_codec::Told;
use lf_pool::{Gate, NoGate};
use lf_rules::Shape;
use std::alloc::Global;
use std::marker::Model;
use std::thread::Threads;

/// So many records are judged at a time. Fewer are not worth the threads that are made for them, and more
/// fill the caches of the processors.
const BATCH: usize = 16384;

/// Judges a trace while its bytes come, as `Session` does. With more than one worker a thread reads the trace,
/// another enters what was read into the logs, and as many as there are workers judge the banks, so that a
/// refusal for memory may come with a later piece. One worker does all in one thread, and so do several as long as
/// fewer bytes came than a batch of records has, and where it is asked what broke first or for the statistics.
///
/// It is ended by `conclude` alone, so that no thread is left at work.
pub struct ParallelSession<G = NoGate> {
    ahead: Ahead<G>,
    fed: Fed,
}

impl<G> Model for ParallelSession<G> {
    ghost use Rattle.lf_verdict.specs.Seen.{Seen};
    ghost use Rattle.lf_verdict.specs.inner.Fed.{HasFed};
    ghost use Rattle.lf_verdict.specs.inner.Ahead.{session_of, IsAhead};

    ghost Value = { Seen };

    ghost view = { λ s. record {
      shape = s.ahead.intake.shape;
      asked = s.ahead.intake.asked;
      fed = s.fed.bytes;
      stop = s.ahead.intake.stop;
    } };

    ghost invariant = { λ s. HasFed (session_of s.ahead) s.fed.bytes × IsAhead s.ahead };
}

impl ParallelSession {
    /// A session for the shape with so many workers, that was fed nothing.
    pub fn asking(alloc: Global, shape: &Shape, workers: u32, asked: Asked) -> ParallelSession
        requires { IsShape shape.now }
        ensures shape { result.shape ≡ shape.now }
        ensures asked { result.asked ≡ asked }
        ensures fresh { result.stop ≡ None }
        ensures fed { result.fed ≡ [] }
    {
        ParallelSession::in_batches(alloc, shape, workers, BATCH, NoGate, asked)
    }
}

impl<G: Gate + Sync + Send + Copy + 'static> ParallelSession<G> {
    /// A session for tests, which see by the gate who judges at once: a thread passes it before it judges a bank
    /// on the records of a batch. Records are judged once so many are read, 16,384 where nothing is said, and the first
    /// ones, of 20 bytes for each record of a batch, one by one. No answer depends on any of it.
    pub fn in_batches(
        alloc: Global,
        shape: &Shape,
        workers: u32,
        batch: usize,
        gate: G,
        asked: Asked,
    ) -> ParallelSession<G>
        requires { IsShape shape.now }
        ensures shape { result.shape ≡ shape.now }
        ensures asked { result.asked ≡ asked }
        ensures fresh { result.stop ≡ None }
        ensures fed { result.fed ≡ [] }
    {
        ParallelSession {
            ahead: Ahead::new(alloc, shape, workers, batch, gate, asked),
            fed: Fed::new(),
        }
    }

    /// Takes the next piece of the trace. It refuses a fault of the format that stands in the bytes so
    /// far, other than `Truncated`, and out of memory; from then on it answers `Failed`. Where a thread is
    /// refused, its work is done here.
    pub fn feed<R: Threads + Sync + Send + Copy + 'static>(
        &mut self,
        rt: &R,
        piece: &[u8],
    ) -> Result<(), Told<Refusal>>
        ensures shape { self.new.shape ≡ self.old.shape }
        ensures asked { self.new.asked ≡ self.old.asked }
        ensures fed { self.new.fed ≡ self.old.fed ++ piece.now }
        // When it answers what.
        ensures told { result ≡ stop_told self.old.stop self.new.stop }
        ensures failed { IsSome self.old.stop → self.new.stop ≡ self.old.stop }
        ensures fine { OnOk result (fault_so_far self.new.fed ≡ None) }
        ensures fault { IfErr result (λ t. IsRefusalSoFar self.new.fed (fault_in t)) }
    {
        let answer = self.ahead.feed(rt, piece);
        self.fed.add(piece);
        answer
    }

    /// What broke, where something did for which no bytes that follow lead to a yes, as `Session::broken` tells it. It
    /// waits for the threads at work, and judges what waits. Where it was not asked what broke first, a part is told
    /// without a record, and of several that are at fault the lowest port, or otherwise the lowest bank: so what is
    /// told depends on the bytes that were fed alone (`one_is_named`), and not on the pieces in which they came or on
    /// the records that were judged together. Where memory runs out, the session stops as after a refused `feed`. After
    /// a refused `feed` it still tells what stands before a fault of the format where it was asked what broke first,
    /// and otherwise nothing.
    pub fn broken<R: Threads + Sync>(&mut self, rt: &R) -> Option<Broken>
        ensures shape { self.new.shape ≡ self.old.shape }
        ensures asked { self.new.asked ≡ self.old.asked }
        ensures fed { self.new.fed ≡ self.old.fed }
        ensures failed { IsSome self.old.stop → self.new.stop ≡ self.old.stop }
        ensures memory { self.old.stop ≡ None → IfSome self.new.stop (λ stop. stop ≡ stops.Memory) }
        ensures watched { self.old.asked.watched ≡ true → self.new.stop ≡ self.old.stop }
        // What is told.
        ensures silent { ¬ CanTell self.old.asked self.new.stop → result ≡ None }
        ensures stands { IfSome result (IsFinal self.old.shape self.old.fed) }
        ensures earliest { self.old.asked.watched ≡ true → IfSome result (IsEarliest self.old.shape self.old.fed) }
        ensures named { self.old.asked.watched ≡ false → IfSome result (IsNamed self.old.shape self.old.fed) }
        ensures none { CanTell self.old.asked self.new.stop
            → IfNone result (NoneBrokeSoFar self.old.shape self.old.fed) }
    {
        self.ahead.broken(rt)
    }

    /// What is answered of the bytes that were fed, as `Session::conclude` tells it.
    pub fn conclude<R: Threads + Sync>(self, rt: &R) -> Conclusion
        ensures fed { result.fed.bytes ≡ self.fed }
        ensures concluded { IsConclusion self.asked self.shape result }
        ensures stopped { IfSome self.stop (λ stop. result.outcome ≡ Outcome.Refused (refusal_of stop)) }
    {
        let ParallelSession { mut ahead, fed } = self;
        let conclusion = ahead.conclude(rt, fed);
        ahead.end();
        conclusion
    }
}
