//! `score check`: judges a trace and prints one line, or so for each of several traces.

use crate::configuration::{bytes_at, bytes_within, text_in};
use crate::ending::Ending;
use crate::hint::hint_of_input;
use crate::progress::{Answer, reader_of};
use crate::refused;
use crate::trace::Trace;
use command_line::CheckOptions;
use lf_verdict::is_worker_count;
use run_engine::{Counted, InputFault, run_check, run_complete};
use std::io;
use std::io::{Read, Write};
use std::rt::Files;
use std::thread::Threads;

fn judge<
    T: Eprint + AllocGlobal + Threads + Sync + Send + Copy + 'static,
    R: Read + Drop,
    W: Write + Drop,
>(rt: &T, config: &str, trace: R, writer: Answer<'_, T, W>, workers: u32) -> io::Result<Ending> {
    let mut reader = Counted::new(trace);
    let mut writer = Counted::new(writer);
    let answer = run_check(rt, &mut reader, &mut writer, config, workers, u32::MAX);
    writer.inner().ending(Ending::of_answer(&answer, false))
}

/// Judges with one worker, and asks whether each request has a reply.
fn judge_complete<
    T: Eprint + AllocGlobal + Threads + Sync + Send + Copy + 'static,
    R: Read + Drop,
    W: Write + Drop,
>(rt: &T, config: &str, trace: R, writer: Answer<'_, T, W>) -> io::Result<Ending> {
    let mut reader = Counted::new(trace);
    let mut writer = Counted::new(writer);
    let answer = run_complete(rt, &mut reader, &mut writer, config, u32::MAX);
    writer.inner().ending(Ending::of_answer(&answer, true))
}

/// Judges the trace at this path.
fn check_trace<
    T: Print + Eprint + Input + Files + AllocGlobal + Threads + Sync + Send + Copy + 'static,
>(rt: &T, config: &str, trace: &str, options: CheckOptions, on_terminal: bool) -> io::Result<Ending>
where
    T::File: Drop,
{
    let reader = reader_of(rt, trace, options.progress, on_terminal);
    let answer = Answer::new(rt, io::writer(rt), options.progress && on_terminal);
    if options.complete {
        return judge_complete(rt, config, reader, answer);
    }
    judge(rt, config, reader, answer, u32::from(options.workers))
}

/// Judges one of several traces. Nothing is told of progress, which would go over the name of the trace. A terminal is
/// told below the answer why the file is no input.
fn check_named<
    T: Print + Eprint + Input + Files + AllocGlobal + Threads + Sync + Send + Copy + 'static,
>(rt: &T, config: &str, trace: &str, options: CheckOptions, on_terminal: bool) -> io::Result<Ending>
where
    T::File: Drop,
{
    let options = CheckOptions {
        progress: false,
        ..options
    };
    print!(rt; "{trace}: ")?;
    let ending = check_trace(rt, config, trace, options, false)?;
    if on_terminal && matches!(ending, Ending::Refused) {
        hint_of_input(rt, trace)?;
    }
    Ok(ending)
}

/// Judges each of these traces.
fn check_each<
    T: Print + Eprint + Input + Files + AllocGlobal + Threads + Sync + Send + Copy + 'static,
>(
    rt: &T,
    config: &str,
    traces: &[&str],
    options: CheckOptions,
    on_terminal: bool,
) -> io::Result<Ending>
where
    T::File: Drop,
{
    let mut ending = Ending::Done;
    for trace in traces {
        ending = ending.worse(check_named(rt, config, trace, options, on_terminal)?);
    }
    Ok(ending)
}

/// Judges each trace that this text names.
fn check_lines<
    T: Print + Eprint + Input + Files + AllocGlobal + Threads + Sync + Send + Copy + 'static,
>(
    rt: &T,
    config: &str,
    traces: &str,
    options: CheckOptions,
    on_terminal: bool,
) -> io::Result<Ending>
where
    T::File: Drop,
{
    let mut ending = Ending::Done;
    for trace in traces.lines() {
        if !trace.is_empty() {
            ending = ending.worse(check_named(rt, config, trace, options, on_terminal)?);
        }
    }
    Ok(ending)
}

/// Judges the traces of the list at this path.
fn check_list<
    T: Print + Eprint + Input + Files + AllocGlobal + Threads + Sync + Send + Copy + 'static,
>(rt: &T, config: &str, list: &str, options: CheckOptions, on_terminal: bool) -> io::Result<Ending>
where
    T::File: Drop,
{
    let read = bytes_within(rt.alloc(), Trace::open(rt, list), u32::MAX);
    match text_in(&read) {
        Ok(traces) => check_lines(rt, config, traces, options, on_terminal),
        Err(InputFault::Memory) => refused(rt, InputFault::Memory),
        Err(_) => {
            println!(rt; "refused read list")?;
            Ok(Ending::Refused)
        }
    }
}

/// Judges the workers before it opens a file, and the configuration before the trace is read.
pub fn check<
    T: Print + Eprint + Input + Files + AllocGlobal + Threads + Sync + Send + Copy + 'static,
>(
    rt: &T,
    config: &str,
    traces: &[&str],
    options: CheckOptions,
    on_terminal: bool,
) -> io::Result<Ending>
where
    T::File: Drop,
{
    let workers = u32::from(options.workers);
    if !is_worker_count(workers) {
        let answer = Answer::new(rt, io::writer(rt), false);
        return judge(rt, "", io::empty(), answer, workers);
    }
    let read = bytes_at(rt, config);
    let text = match text_in(&read) {
        Ok(text) => text,
        Err(why) => return refused(rt, why),
    };
    match traces {
        [list] if options.list => check_list(rt, text, list, options, on_terminal),
        [trace] => check_trace(rt, text, trace, options, on_terminal),
        _ => check_each(rt, text, traces, options, on_terminal),
    }
}
