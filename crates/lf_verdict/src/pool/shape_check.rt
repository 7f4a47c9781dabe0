//! The verdict of bytes that come in pieces.

ghost use Rattle.std.specs.Prelude.{◌≡◌, ◌↔◌, ◌<◌};
ghost use Rattle.lf_rules.specs.InRange.{IsShape};
ghost use Rattle.lf_verdict.specs.Legal.{joined};
ghost use Rattle.lf_verdict.specs.Verdict.{IsWorkerCount, IsVerdictOf, IsLegalYes, IsDecided};
ghost use Rattle.lf_verdict.specs.Laws.{IsRunlessNo};
ghost use Rattle.lf_verdict.specs.inner.Jobs.{IsWorkersAnswer};

use crate::answer::{Refusal, Verdict};
use crate::header::differing;
use crate::laws::{no_has_no_run, yes_is_legal};
use crate::pool::gathering::{Trace, read};
use crate::pool::judge::logs_verdict;
use lf_pool::{Gate, is_worker_count};
use lf_rules::Shape;
use std::alloc::Global;
use std::sync::Wait;
use std::thread::Threads;

/// The verdict of the bytes in these pieces, by so many workers once all bytes are read.
fn workers_verdict<G: Gate + Sync, R: Threads + Wait + Sync>(
    rt: &R,
    alloc: Global,
    shape: &Shape,
    pieces: &[&[u8]],
    workers: u32,
    gate: &G,
) -> Verdict
    requires { IsShape shape.now }
    ensures answer { IsWorkersAnswer shape.now (joined pieces.now) result }
    ensures thread { result ≡ Verdict.Refused Refusal.Thread → 1 < workers }
{
    let trace = match read(alloc, shape, pieces) {
        Ok(trace) => trace,
        Err(stop) => return Verdict::Refused(Refusal::from(stop)),
    };
    let Trace {
        header,
        memory,
        logs,
    } = trace;
    if let Some(field) = differing(shape, header) {
        return Verdict::Refused(Refusal::Header(field));
    }
    logs_verdict(rt, alloc, shape, memory, logs, workers, gate)
}

/// The verdict of the trace that comes in these pieces, judged by so many workers, 1 to 16. All bytes are
/// read first; then each worker passes the gate before each port and each bank that it replays. `Thread`
/// where a thread was refused. A `Session` judges a trace while its bytes come.
pub fn check_shape<G: Gate + Sync, R: AllocGlobal + Threads + Wait + Sync>(
    rt: &R,
    shape: &Shape,
    pieces: &[&[u8]],
    workers: u32,
    gate: &G,
) -> Verdict
    requires shape { IsShape shape.now }

    // A yes means that the trace is legal, a no that it has no run.
    ensures legal { IsLegalYes shape.now (joined pieces.now) result }
    ensures runless { IsRunlessNo shape.now (joined pieces.now) result }

    ensures verdict { IsDecided result → IsVerdictOf shape.now workers (joined pieces.now) result }
    ensures workers { (result ≡ Verdict.Refused (Refusal.Workers workers)) ↔ ¬ IsWorkerCount workers }
    ensures thread { result ≡ Verdict.Refused Refusal.Thread → 1 < workers }
{
    yes_is_legal();
    no_has_no_run();
    if !is_worker_count(workers) {
        return Verdict::Refused(Refusal::Workers(workers));
    }
    workers_verdict(rt, rt.alloc(), shape, pieces, workers, gate)
}
