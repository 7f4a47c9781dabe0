//! The commands of the program, without its command line.

ghost use Rattle.std.specs.Prelude.{◌≡◌, true, false, Result, IfOk, IfErr};
ghost use Rattle.lf_rules.specs.InRange.{IsShape};
ghost use Rattle.lf_verdict.specs.Configured.{IsVerdictFor, IsLegalFor, IsRunlessNoFor};
ghost use Rattle.lf_verdict.specs.Laws.{IsRunlessNo};
ghost use Rattle.lf_verdict.specs.Legal.{IsLegal};
ghost use Rattle.lf_verdict.specs.Verdict.{IsWorkerCount, IsVerdictOf};
ghost use Rattle.lf_verdict.specs.declared.answer.Refusal.{Refusal};
ghost use Rattle.lf_verdict.specs.declared.session.conclusion.Conclusion.{Conclusion};
ghost use Rattle.run_stream.specs.Counted.{calls_of, failures_of, account_of};
ghost use Rattle.run_engine.specs.declared.fault.RunFault.{RunFault};
ghost use Rattle.run_engine.specs.Asks.{IsLine, IsCompletion, IsWatched, AreStatisticsLines, IsReport};
ghost use Rattle.run_engine.specs.Line.{not_read_line};
ghost use Rattle.run_engine.specs.Needs.{verdict_needs, statistics_needs, watch_needs};
ghost use Rattle.run_engine.specs.Program.{IsAsked, IsRunOfProgram, verdict_in};
ghost use Rattle.run_engine.specs.Run.{IsRunFor};

use crate::asks::{Check, Complete, Statistics, Watch};
use crate::fault::RunFault;
use crate::running::{run_for, run_on};
use lf_rules::Shape;
use lf_verdict::{Conclusion, Refusal, Verdict, is_worker_count};
use run_stream::Counted;
use std::io::{Read, Write};
use std::thread::Threads;

/// The verdict, where a run came to one.
fn verdict_in(answer: Result<Conclusion, RunFault>) -> Result<Verdict, RunFault>
    ensures { result ≡ verdict_in answer }
{
    match answer {
        Ok(conclusion) => Ok(conclusion.into_verdict()),
        Err(fault) => Err(fault),
    }
}

/// This shape, where there can be so many workers.
fn shape_with(shape: &Shape, workers: u32) -> Result<Shape, Refusal>
    ensures same { IfOk result (λ s. s ≡ shape.now) }
    ensures count { IfOk result (λ _. IsWorkerCount workers) }
    ensures refusal { IfErr result (λ r. (r ≡ Refusal.Workers workers) × ¬ IsWorkerCount workers) }
{
    if is_worker_count(workers) {
        Ok(*shape)
    } else {
        Err(Refusal::Workers(workers))
    }
}

/// Reads the trace until the reader is at its end or a fault stands in what it gave, judges it for the
/// shape, and writes the line of the verdict. Each read is a turn, and there are at most so many turns.
/// Where there cannot be so many workers, nothing is read.
///
/// `RunFault::Read` says that a read failed, and `RunFault::Turns` that the turns were used up before
/// the trace was read: then the line is `refused read trace`. `RunFault::Write` says that a write
/// failed: what went out is the beginning of the line.
pub fn run_shape<T: AllocGlobal + Threads + Sync + Send + Copy + 'static, R: Read, W: Write>(
    rt: &T,
    reader: &mut Counted<R>,
    writer: &mut Counted<W>,
    shape: &Shape,
    workers: u32,
    turns: u32,
) -> Result<Verdict, RunFault>
    requires calls { calls_of reader.old ≡ 0 }
    requires failures { failures_of reader.old ≡ 0 }
    requires writes { failures_of writer.old ≡ 0 }
    requires shape { IsShape shape.now }
    ensures unread { ¬ IsWorkerCount workers → reader.new ≡ reader.old }
    ensures run { IsRunOfProgram (account_of R.remaining reader.old) (account_of R.remaining reader.new)
        (account_of W.contents writer.old) (account_of W.contents writer.new)
        (IsWorkerCount workers) (IsLegal shape.now) (IsRunlessNo shape.now) (IsVerdictOf shape.now workers)
        turns result }
{
    let found = shape_with(shape, workers);
    let ask = Check { ordered: true };
    verdict_in(run_on(rt, reader, writer, found, workers, &ask, turns))
}

/// As `run_shape`, for the shape that the configuration says. Where there cannot be so many workers, or the text is no
/// configuration, nothing is read.
pub fn run<T: AllocGlobal + Threads + Sync + Send + Copy + 'static, R: Read, W: Write>(
    rt: &T,
    reader: &mut Counted<R>,
    writer: &mut Counted<W>,
    config: &str,
    workers: u32,
    turns: u32,
) -> Result<Verdict, RunFault>
    requires calls { calls_of reader.old ≡ 0 }
    requires failures { failures_of reader.old ≡ 0 }
    requires writes { failures_of writer.old ≡ 0 }
    ensures unread { ¬ IsAsked config.now workers → reader.new ≡ reader.old }
    ensures run { IsRunOfProgram (account_of R.remaining reader.old) (account_of R.remaining reader.new)
        (account_of W.contents writer.old) (account_of W.contents writer.new)
        (IsAsked config.now workers) (IsLegalFor config.now) (IsRunlessNoFor config.now)
        (IsVerdictFor config.now workers) turns result }
{
    let ask = Check { ordered: true };
    verdict_in(run_for(rt, reader, writer, config, workers, &ask, turns))
}

/// Reads and judges as `run` does, and writes the same line, but asks for no order. So it takes less time where the
/// records of each bank come by their numbers.
pub fn run_check<T: AllocGlobal + Threads + Sync + Send + Copy + 'static, R: Read, W: Write>(
    rt: &T,
    reader: &mut Counted<R>,
    writer: &mut Counted<W>,
    config: &str,
    workers: u32,
    turns: u32,
) -> Result<Conclusion, RunFault>
    requires calls { calls_of reader.old ≡ 0 }
    requires failures { failures_of reader.old ≡ 0 }
    requires writes { failures_of writer.old ≡ 0 }
    ensures unread { ¬ IsAsked config.now workers → reader.new ≡ reader.old }
    ensures run { IsRunFor (account_of R.remaining reader.old) (account_of R.remaining reader.new)
        (account_of W.contents writer.old) (account_of W.contents writer.new) config.now workers
        (verdict_needs false) IsLine not_read_line turns result }
{
    run_for(
        rt,
        reader,
        writer,
        config,
        workers,
        &Check { ordered: false },
        turns,
    )
}

/// As `run_check` with one worker, and looks in a trace that is legal for a request that has no reply at its end. Where
/// there is one, the line of the first is written in the place of the verdict's.
pub fn run_complete<T: AllocGlobal + Threads + Sync + Send + Copy + 'static, R: Read, W: Write>(
    rt: &T,
    reader: &mut Counted<R>,
    writer: &mut Counted<W>,
    config: &str,
    turns: u32,
) -> Result<Conclusion, RunFault>
    requires calls { calls_of reader.old ≡ 0 }
    requires failures { failures_of reader.old ≡ 0 }
    requires writes { failures_of writer.old ≡ 0 }
    ensures unread { ¬ IsAsked config.now 1 → reader.new ≡ reader.old }
    ensures run { IsRunFor (account_of R.remaining reader.old) (account_of R.remaining reader.new)
        (account_of W.contents writer.old) (account_of W.contents writer.new) config.now 1
        (verdict_needs false) IsCompletion not_read_line turns result }
{
    run_for(rt, reader, writer, config, 1, &Complete, turns)
}

/// As `run` with one worker, but writes the statistics of a trace that is legal: a line for each bank and one for each
/// port.
pub fn run_stats<T: AllocGlobal + Threads + Sync + Send + Copy + 'static, R: Read, W: Write>(
    rt: &T,
    reader: &mut Counted<R>,
    writer: &mut Counted<W>,
    config: &str,
    turns: u32,
) -> Result<Verdict, RunFault>
    requires calls { calls_of reader.old ≡ 0 }
    requires failures { failures_of reader.old ≡ 0 }
    requires writes { failures_of writer.old ≡ 0 }
    ensures unread { ¬ IsAsked config.now 1 → reader.new ≡ reader.old }
    ensures run { (answer : Result Conclusion RunFault) × (result ≡ verdict_in answer) × IsRunFor
        (account_of R.remaining reader.old) (account_of R.remaining reader.new)
        (account_of W.contents writer.old) (account_of W.contents writer.new) config.now 1
        (statistics_needs true) (IsReport AreStatisticsLines) not_read_line turns answer }
{
    let ask = Statistics { ordered: true };
    verdict_in(run_for(rt, reader, writer, config, 1, &ask, turns))
}

/// As `run_check` with one worker, but ends as soon as something broke for good, and writes what, with the first record
/// upon which a part did. What stands in the bytes of a read is told before the next read.
pub fn run_watch<T: AllocGlobal + Threads + Sync + Send + Copy + 'static, R: Read, W: Write>(
    rt: &T,
    reader: &mut Counted<R>,
    writer: &mut Counted<W>,
    config: &str,
    turns: u32,
) -> Result<Conclusion, RunFault>
    requires calls { calls_of reader.old ≡ 0 }
    requires failures { failures_of reader.old ≡ 0 }
    requires writes { failures_of writer.old ≡ 0 }
    ensures unread { ¬ IsAsked config.now 1 → reader.new ≡ reader.old }
    ensures run { IsRunFor (account_of R.remaining reader.old) (account_of R.remaining reader.new)
        (account_of W.contents writer.old) (account_of W.contents writer.new) config.now 1
        watch_needs IsWatched not_read_line turns result }
{
    run_for(rt, reader, writer, config, 1, &Watch, turns)
}
