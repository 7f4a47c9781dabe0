//! The verdict of a trace for the hierarchy that a text says.

ghost use Rattle.std.specs.Prelude.{◌≡◌, ◌↔◌, ◌<◌};
ghost use Rattle.lf_verdict.specs.Legal.{joined};
ghost use Rattle.lf_verdict.specs.Verdict.{IsWorkerCount, IsDecided};
ghost use Rattle.lf_verdict.specs.Configured.{IsVerdictFor, IsLegalYesFor, IsRunlessNoFor};

use crate::answer::{Refusal, Verdict};
use crate::pool::shape_check::check_shape;
use lf_config::read;
use lf_pool::{NoGate, is_worker_count};
use std::sync::Wait;
use std::thread::Threads;

/// The verdict of the trace that comes in these pieces, for the hierarchy that the configuration
/// says, judged by so many workers as `check_shape` does.
pub fn check<R: AllocGlobal + Threads + Wait + Sync>(
    rt: &R,
    config: &str,
    pieces: &[&[u8]],
    workers: u32,
) -> Verdict
    // A yes means that the configuration says a hierarchy for which the trace is legal, a no that it
    // says one for which the trace has no run.
    ensures legal { IsLegalYesFor config.now (joined pieces.now) result }
    ensures runless { IsRunlessNoFor config.now (joined pieces.now) result }

    ensures verdict { IsDecided result → IsVerdictFor config.now workers (joined pieces.now) result }
    ensures workers { (result ≡ Verdict.Refused (Refusal.Workers workers)) ↔ ¬ IsWorkerCount workers }
    ensures thread { result ≡ Verdict.Refused Refusal.Thread → 1 < workers }
{
    if !is_worker_count(workers) {
        return Verdict::Refused(Refusal::Workers(workers));
    }
    match read(rt.alloc(), config) {
        Ok(shape) => check_shape(rt, &shape, pieces, workers, &NoGate),
        Err(fault) => Verdict::Refused(Refusal::from(fault)),
    }
}
