//! One run for all that can be asked.

ghost use Rattle.std.specs.Prelude.{◌≡◌, IfOk, IsErr};
ghost use Rattle.lf_rules.specs.InRange.{IsShape};
ghost use Rattle.run_stream.specs.Counted.{calls_of, failures_of, account_of};
ghost use Rattle.run_engine.specs.Program.{IsAsked};
ghost use Rattle.run_engine.specs.Run.{IsRunOn, IsShapeFor, IsRunFor};

use crate::ask::Ask;
use crate::fault::RunFault;
use crate::judging::judge;
use crate::telling::{tell, tell_refused};
use lf_config::read;
use lf_rules::Shape;
use lf_verdict::{Conclusion, Refusal, is_worker_count};
use run_stream::Counted;
use std::alloc::Global;
use std::io::{Read, Write};
use std::thread::Threads;

/// The shape that the configuration says, where there can be so many workers.
pub fn shape_for(alloc: Global, config: &str, workers: u32) -> Result<Shape, Refusal>
    ensures found { IsShapeFor config.now workers result }
    ensures in_range { IfOk result IsShape }
{
    if !is_worker_count(workers) {
        return Err(Refusal::Workers(workers));
    }
    Ok(read(alloc, config)?)
}

/// Reads the trace until the reader is at its end or no more is wanted, judges it for the shape that was found, and
/// writes the text that is due for what is asked. Each read is a turn, and there are at most so many turns. Where a
/// shape was refused nothing is read, and the text is that of the refusal.
///
/// `RunFault::Read` says that a read failed, and `RunFault::Turns` that the turns were used up before the trace was
/// read: then the text is that of a trace that was not read. `RunFault::Write` says that a write failed: what went out
/// is the beginning of what was due.
pub fn run_on<T: AllocGlobal + Threads + Sync + Send + Copy + 'static, A: Ask, R: Read, W: Write>(
    rt: &T,
    reader: &mut Counted<R>,
    writer: &mut Counted<W>,
    found: Result<Shape, Refusal>,
    workers: u32,
    ask: &A,
    turns: u32,
) -> Result<Conclusion, RunFault>
    requires calls { calls_of reader.old ≡ 0 }
    requires failures { failures_of reader.old ≡ 0 }
    requires writes { failures_of writer.old ≡ 0 }
    requires in_range { IfOk found IsShape }
    ensures unread { IsErr found → reader.new ≡ reader.old }
    ensures run { IsRunOn (account_of R.remaining reader.old) (account_of R.remaining reader.new)
        (account_of W.contents writer.old) (account_of W.contents writer.new)
        (A.needs_of ask.now) (A.is_due ask.now) A.lost turns found result }
{
    match found {
        Ok(shape) => {
            let came_to = judge(rt, reader, &shape, workers, ask.needs(), turns);
            tell(rt.alloc(), writer, ask, &shape, came_to)
        }
        Err(refusal) => tell_refused(rt.alloc(), writer, ask, refusal),
    }
}

/// Runs for the shape that the configuration says. Where there cannot be so many workers, or the text is no
/// configuration, nothing is read.
pub fn run_for<T: AllocGlobal + Threads + Sync + Send + Copy + 'static, A: Ask, R: Read, W: Write>(
    rt: &T,
    reader: &mut Counted<R>,
    writer: &mut Counted<W>,
    config: &str,
    workers: u32,
    ask: &A,
    turns: u32,
) -> Result<Conclusion, RunFault>
    requires calls { calls_of reader.old ≡ 0 }
    requires failures { failures_of reader.old ≡ 0 }
    requires writes { failures_of writer.old ≡ 0 }
    ensures unread { ¬ IsAsked config.now workers → reader.new ≡ reader.old }
    ensures run { IsRunFor (account_of R.remaining reader.old) (account_of R.remaining reader.new)
        (account_of W.contents writer.old) (account_of W.contents writer.new) config.now workers
        (A.needs_of ask.now) (A.is_due ask.now) A.lost turns result }
{
    let found = shape_for(rt.alloc(), config, workers);
    run_on(rt, reader, writer, found, workers, ask, turns)
}
