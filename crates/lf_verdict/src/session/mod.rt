//! The verdict of a trace, judged while its bytes come.

ghost use Rattle.std.specs.Prelude.{◌≡◌, ◌++◌, true, [], Ok, None, IfOk, IfErr, IfSome, IfNone, IsSome, OnOk};
ghost use Rattle.lf_rules.specs.InRange.{IsShape};
ghost use Rattle.lf_codec.specs.Reader.{fault_in};
ghost use Rattle.lf_codec.specs.Reading.{fault_so_far};
ghost use Rattle.lf_config.specs.Configuration.{configuration_of};
ghost use Rattle.lf_verdict.specs.declared.answer.Outcome.{Outcome};
ghost use Rattle.lf_verdict.specs.declared.answer.Verdict.{Verdict};
ghost use Rattle.lf_verdict.specs.declared.answer.Refusal.{Refusal};
ghost use Rattle.lf_verdict.specs.Verdict.{IsDecided, IsVerdictOf, IsLegalYes};
ghost use Rattle.lf_verdict.specs.Laws.{IsRunlessNo};
ghost use Rattle.lf_verdict.specs.Conclusion.{IsConclusion};
ghost use Rattle.lf_verdict.specs.Final.{IsFinal, IsEarliest};
ghost use Rattle.lf_verdict.specs.Named.{NoneBrokeSoFar};
ghost use Rattle.lf_verdict.specs.Session.{CanTell, IsConfigRefusal, refusal_of, stop_told, IsRefusalSoFar};

mod ahead;
mod asked;
mod breaking;
mod conclusion;
mod intake;
mod parallel;
mod promise;
mod share;
mod standing;
mod worker;
mod workers;

use crate::answer::{Refusal, Verdict};
use crate::fed::Fed;
use crate::session::intake::Intake;
pub use asked::Asked;
pub use breaking::{Broken, PartFault, Upon};
pub use conclusion::Conclusion;
use lf_codec::Told;
use lf_config::read;
use lf_rules::Shape;
pub use parallel::ParallelSession;
use std::alloc::Global;
use std::marker::Model;

/// Judges a trace while its bytes come, by one worker, and keeps no whole trace.
#[derive(Drop)]
pub struct Session {
    intake: Intake,
    fed: Fed,
}

impl Model for Session {
    ghost use Rattle.lf_verdict.specs.Seen.{Seen};
    ghost use Rattle.lf_verdict.specs.inner.Fed.{HasFed, IsAsAsked};
    ghost use Rattle.lf_verdict.specs.inner.Taking.{IsSettled};

    ghost Value = { Seen };

    ghost view = { λ s. record {
      shape = s.intake.shape;
      asked = s.intake.asked;
      fed = s.fed.bytes;
      stop = s.intake.stop;
    } };

    ghost invariant = { λ s. HasFed s.intake s.fed.bytes × (IsAsAsked s.intake × IsSettled s.intake) };
}

impl Session {
    /// A session for the shape, that was fed nothing.
    pub fn asking(alloc: Global, shape: &Shape, asked: Asked) -> Session
        requires { IsShape shape.now }
        ensures shape { result.shape ≡ shape.now }
        ensures asked { result.asked ≡ asked }
        ensures fresh { result.stop ≡ None }
        ensures fed { result.fed ≡ [] }
    {
        Session {
            intake: Intake::new(alloc, shape, asked),
            fed: Fed::new(),
        }
    }

    /// A session for the shape, that was fed nothing. It is asked for the least order, and what broke first.
    pub fn for_shape(alloc: Global, shape: &Shape) -> Session
        requires { IsShape shape.now }
        ensures shape { result.shape ≡ shape.now }
        ensures ordered { result.asked.ordered ≡ true }
        ensures watched { result.asked.watched ≡ true }
        ensures fresh { result.stop ≡ None }
        ensures fed { result.fed ≡ [] }
    {
        let asked = Asked {
            ordered: true,
            watched: true,
            counted: false,
        };
        Session::asking(alloc, shape, asked)
    }

    /// A session as that of `for_shape`, for the hierarchy that the configuration says.
    pub fn new(alloc: Global, config: &str) -> Result<Session, Refusal>
        ensures configured { IfOk result (λ s. configuration_of config.now ≡ Ok s.shape) }
        ensures ordered { IfOk result (λ s. s.asked.ordered ≡ true) }
        ensures watched { IfOk result (λ s. s.asked.watched ≡ true) }
        ensures fresh { IfOk result (λ s. s.stop ≡ None) }
        ensures fed { IfOk result (λ s. s.fed ≡ []) }
        ensures refused { IfErr result (IsConfigRefusal config.now) }
    {
        let shape = read(alloc, config)?;
        Ok(Session::for_shape(alloc, &shape))
    }

    /// Takes the next piece of the trace. It refuses a fault of the format that stands in the bytes so
    /// far, other than `Truncated`, and out of memory; from then on it answers `Failed`.
    pub fn feed(&mut self, piece: &[u8]) -> Result<(), Told<Refusal>>
        ensures shape { self.new.shape ≡ self.old.shape }
        ensures asked { self.new.asked ≡ self.old.asked }
        ensures fed { self.new.fed ≡ self.old.fed ++ piece.now }
        // When it answers what.
        ensures told { result ≡ stop_told self.old.stop self.new.stop }
        ensures failed { IsSome self.old.stop → self.new.stop ≡ self.old.stop }
        ensures fine { OnOk result (fault_so_far self.new.fed ≡ None) }
        ensures fault { IfErr result (λ t. IsRefusalSoFar self.new.fed (fault_in t)) }
    {
        let answer = self.intake.feed(piece);
        self.fed.add(piece);
        answer
    }

    /// What broke, where something did for which no bytes that follow lead to a yes: a header of another hierarchy, or
    /// a part of the records so far. Where it was asked what broke first, the part is told with the first record upon
    /// which one was at fault. The outcome is then that fault, one that is named before it, or that the bytes are no
    /// trace. The header is told as soon as it is there. After a refused `feed` it still tells what stands before a
    /// fault of the format where it was asked what broke first, and otherwise nothing. So what is told depends on the
    /// bytes alone (`one_is_earliest`), and not on the pieces in which they came.
    pub fn broken(&self) -> Option<Broken>
        ensures stands { IfSome result (IsFinal self.now.shape self.now.fed) }
        ensures earliest { self.now.asked.watched ≡ true → IfSome result (IsEarliest self.now.shape self.now.fed) }
        ensures none { CanTell self.now.asked self.now.stop
            → IfNone result (NoneBrokeSoFar self.now.shape self.now.fed) }
        ensures silent { ¬ CanTell self.now.asked self.now.stop → result ≡ None }
    {
        self.intake.broken()
    }

    /// What is answered of the bytes that were fed: the outcome, and what was asked for. After a refused `feed` the
    /// outcome is that refusal, and where memory ran out it is that. Nothing else is told then, but what broke before a
    /// fault of the format, where that was asked for.
    pub fn conclude(self) -> Conclusion
        ensures fed { result.fed.bytes ≡ self.fed }
        ensures concluded { IsConclusion self.asked self.shape result }
        ensures stopped { IfSome self.stop (λ stop. result.outcome ≡ Outcome.Refused (refusal_of stop)) }
    {
        let Session { mut intake, fed } = self;
        intake.conclude(fed)
    }

    /// The verdict of the bytes that were fed: that of `check_shape`. After a refused `feed` it is that refusal. It is
    /// for a session that was asked for the order: without one a yes is told as out of memory.
    pub fn finish(self) -> Verdict
        ensures legal { IsLegalYes self.shape self.fed result }
        ensures runless { IsRunlessNo self.shape self.fed result }
        ensures verdict { IsDecided result → IsVerdictOf self.shape 1 self.fed result }
        ensures stopped { IfSome self.stop (λ stop. result ≡ Verdict.Refused (refusal_of stop)) }
        ensures thread { ¬ (result ≡ Verdict.Refused Refusal.Thread) }
    {
        self.conclude().into_verdict()
    }
}
