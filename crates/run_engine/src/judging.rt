//! Reads the bytes of a trace and judges them.

ghost use Rattle.std.specs.Prelude.{◌≡◌, ◌≤◌, ◌<◌, ◌↔◌, ◌++◌, ℕ, List, [], true, false, None, Ok, length};
ghost use Rattle.std.specs.Prelude.{IfOk, IfErr, OnOk, OnErr, IsErrOf, IsTrue};
ghost use Rattle.lf_rules.specs.InRange.{IsShape};
ghost use Rattle.lf_codec.specs.Laws.{AreBytes};
ghost use Rattle.lf_codec.specs.Reader.{fault_in};
ghost use Rattle.lf_codec.specs.Reading.{fault_so_far};
ghost use Rattle.lf_verdict.specs.Session.{IsRefusalSoFar};
ghost use Rattle.run_stream.specs.declared.gathering.Stop.{Stop};
ghost use Rattle.run_stream.specs.Gathered.{IsPartRead, IsAllRead, GoesOn, GoesOnToLast, OfReading};
ghost use Rattle.run_engine.specs.Gathered.{HasFault, HasBroken, HasEnough};
ghost use Rattle.run_engine.specs.Run.{IsJudged};

use crate::ask::Needs;
use crate::fault::RunFault;
use lf_codec::{Told, exact_reading, fault_so_far, faults_stand};
use lf_rules::{NoMemory, Shape};
use lf_verdict::{Conclusion, Fed, ParallelSession, Refusal};
use run_stream::{Source, Stop, zeros};
use std::io::ErrorKind;
use std::thread::Threads;

/// The most bytes that one read asks for.
const PIECE: usize = 65536;

/// What was concluded of a trace, and its bytes, where they are needed.
#[derive(Drop)]
pub struct Judged {
    pub conclusion: Conclusion,
    pub bytes: Vec<u8>,
}

/// A session, and the bytes that it was fed, where they are needed.
struct Feeding {
    session: ParallelSession,
    needs: Needs,
    bytes: Vec<u8>,
}

/// Whether a fault stands in what a session was fed, by its answer to the last piece. `NoMemory` says
/// that a growth was refused.
fn has_fault(answer: Result<(), Told<Refusal>>) -> Result<bool, NoMemory>
    ensures fine { result ≡ Ok false → answer ≡ Ok tt }
    ensures told { (bytes : List ℕ) → OnOk answer (fault_so_far bytes ≡ None) →
        IfErr answer (λ t. IsRefusalSoFar bytes (fault_in t)) →
        IfOk result (λ broken. IsTrue broken ↔ HasFault bytes) }
{
    fault_so_far();
    match answer {
        Ok(()) => Ok(false),
        Err(told) => match told.fault() {
            Refusal::Memory => Err(NoMemory),
            _ => Ok(true),
        },
    }
}

/// Whether something broke for good in what the session was fed, where a run is to end with that.
fn is_broken<T: Threads + Sync>(rt: &T, session: &mut ParallelSession, early: bool) -> bool
    ensures shape { session.new.shape ≡ session.old.shape }
    ensures asked { session.new.asked ≡ session.old.asked }
    ensures fed { session.new.fed ≡ session.old.fed }
    ensures broken { session.old.stop ≡ None → (early ≡ true → session.old.asked.watched ≡ true)
        → (IsTrue result ↔ ((early ≡ true) × HasBroken session.old.shape session.old.fed)) }
{
    if !early {
        return false;
    }
    session.broken(rt).is_some()
}

/// Hands the session a piece, and tells whether what it was fed is enough. `NoMemory` says that a growth was refused.
fn take<T: Threads + Sync + Send + Copy + 'static>(
    rt: &T,
    session: &mut ParallelSession,
    needs: Needs,
    piece: &[u8],
) -> Result<bool, NoMemory>
    requires { needs.early ≡ true → session.old.asked.watched ≡ true }
    ensures shape { session.new.shape ≡ session.old.shape }
    ensures asked { session.new.asked ≡ session.old.asked }
    ensures fed { session.new.fed ≡ session.old.fed ++ piece.now }
    ensures are_bytes { AreBytes session.old.fed → AreBytes session.new.fed }
    ensures enough { IfOk result (λ enough. IsTrue enough ↔ HasEnough needs session.old.shape session.new.fed) }
{
    let answer = session.feed(rt, piece);
    match has_fault(answer) {
        Ok(false) => Ok(is_broken(rt, session, needs.early)),
        Ok(true) => Ok(true),
        Err(fault) => Err(fault),
    }
}

impl Feeding {
    /// Takes a piece, and tells whether what was fed is enough. `NoMemory` says that a growth was refused.
    fn feed<T: Threads + Sync + Send + Copy + 'static>(
        &mut self,
        rt: &T,
        piece: &[u8],
    ) -> Result<bool, NoMemory>
        requires { self.old.needs.early ≡ true → self.old.session.asked.watched ≡ true }
        ensures shape { self.new.session.shape ≡ self.old.session.shape }
        ensures asked { self.new.session.asked ≡ self.old.session.asked }
        ensures needs { self.new.needs ≡ self.old.needs }
        ensures fed { OnOk result (self.new.session.fed ≡ self.old.session.fed ++ piece.now) }
        ensures are_bytes { OnOk result (AreBytes self.old.session.fed → AreBytes self.new.session.fed) }
        ensures kept { OnOk result (self.old.needs.bytes ≡ true →
            self.new.bytes.items ≡ self.old.bytes.items ++ piece.now) }
        ensures enough { IfOk result (λ enough. IsTrue enough
            ↔ HasEnough self.old.needs self.old.session.shape self.new.session.fed) }
    {
        if self.needs.bytes {
            self.bytes.extend_from_slice(piece)?;
        }
        take(rt, &mut self.session, self.needs, piece)
    }
}

/// Reads pieces, each at most as long as the buffer, and feeds them, until a read gives no bytes or what was read is
/// enough. Each read is a turn, also one that is interrupted, which is tried again.
///
/// This is `run_stream::gather` for a session that needs the handle: a sink has none, since what a
/// thread is given may not rest on a bound of an `impl`.
fn gather<T: Threads + Sync + Send + Copy + 'static, S: Source>(
    rt: &T,
    source: &mut S,
    buffer: &mut [u8],
    feeding: &mut Feeding,
    turns: u32,
) -> Result<(), Stop<NoMemory>>
    requires calls { (S.account source.old).calls ≡ 0 }
    requires failures { (S.account source.old).failures ≡ 0 }
    requires room { 0 < length buffer.old }
    requires early { feeding.old.needs.early ≡ true → feeding.old.session.asked.watched ≡ true }
    requires fresh { feeding.old.session.fed ≡ [] }
    requires empty { feeding.old.bytes.items ≡ [] }
    ensures reads { (S.account source.new).calls ≤ turns }
    ensures shape { feeding.new.session.shape ≡ feeding.old.session.shape }
    ensures asked { feeding.new.session.asked ≡ feeding.old.session.asked }
    ensures are_bytes { OnOk result (AreBytes feeding.new.session.fed) }
    ensures all { OnOk result (IsAllRead (HasEnough feeding.old.needs feeding.old.session.shape) (length buffer.old)
        (S.account source.old) (S.account source.new) feeding.new.session.fed) }
    ensures kept { OnOk result (feeding.old.needs.bytes ≡ true →
        feeding.new.bytes.items ≡ feeding.new.session.fed) }
    ensures part { IfErr result (λ e. OfReading e ((bytes : List ℕ) × IsPartRead
        (HasEnough feeding.old.needs feeding.old.session.shape) (S.account source.old) (S.account source.new) bytes)) }
    ensures read { IsErrOf result Stop.Read ↔ (0 < (S.account source.new).failures) }
    ensures turns { IsErrOf result Stop.Turns → (S.account source.new).calls ≡ turns }
    // A read that answers no bytes is the last one, and then there is no fault.
    ensures once { OnOk result (GoesOnToLast (S.account source.old).pieces (S.account source.new).pieces) }
    ensures unended { OnErr result (GoesOn (S.account source.old).pieces (S.account source.new).pieces) }
{
    fault_so_far();
    for _turn in 0..turns {
        match source.pull(buffer) {
            Ok(0) => return Ok(()),
            Ok(n) => match feeding.feed(rt, &buffer[..n]) {
                Ok(false) => {}
                Ok(true) => return Ok(()),
                Err(fault) => return Err(Stop::Sink(fault)),
            },
            Err(e) => {
                if e.kind() != ErrorKind::Interrupted {
                    return Err(Stop::Read);
                }
            }
        }
    }
    Err(Stop::Turns)
}

/// Reads and judges, by so many workers, and finds out what is needed. Nothing is written.
///
/// `RunFault::Read` says that a read failed, and `RunFault::Turns` that the turns were used up before the trace was
/// read.
pub fn judge<T: AllocGlobal + Threads + Sync + Send + Copy + 'static, S: Source>(
    rt: &T,
    source: &mut S,
    shape: &Shape,
    workers: u32,
    needs: Needs,
    turns: u32,
) -> Result<Judged, RunFault>
    requires calls { (S.account source.old).calls ≡ 0 }
    requires failures { (S.account source.old).failures ≡ 0 }
    requires in_range { IsShape shape.now }
    requires early { needs.early ≡ true → needs.asked.watched ≡ true }
    ensures { IsJudged (S.account source.old) (S.account source.new) needs shape.now turns result }
{
    exact_reading();
    fault_so_far();
    faults_stand();
    let bytes = Vec::new(rt.alloc());
    let Ok(mut buffer) = zeros(rt.alloc(), PIECE) else {
        let conclusion = Conclusion::without_memory(Fed::new());
        return Ok(Judged { conclusion, bytes });
    };
    let session = ParallelSession::asking(rt.alloc(), shape, workers, needs.asked);
    let mut feeding = Feeding {
        session,
        needs,
        bytes,
    };
    let gathered = gather(rt, source, buffer.as_mut_slice(), &mut feeding, turns);
    let Feeding {
        session,
        needs: _,
        bytes,
    } = feeding;
    // Also after a failed read, so that no thread is left at work.
    let conclusion = session.conclude(rt);
    match gathered {
        Ok(()) => Ok(Judged { conclusion, bytes }),
        Err(Stop::Sink(NoMemory)) => Ok(Judged {
            conclusion: Conclusion::without_memory(conclusion.fed),
            bytes,
        }),
        Err(Stop::Read) => Err(RunFault::Read),
        Err(Stop::Turns) => Err(RunFault::Turns),
    }
}
