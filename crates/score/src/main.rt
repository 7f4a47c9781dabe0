//! `score check CONFIG TRACE` judges a recorded trace of a two-level lockup-free cache for the hierarchy
//! that a configuration says, and prints one line: a yes with the number of events, a no with the fault
//! and its place, or why the trace is not judged. `explain` also prints why a record breaks a rule, `watch`
//! ends as soon as a trace broke for good, `stats` prints the statistics of a trace that is legal and `cover`
//! what it reached, `shrink` writes a smaller trace with the same rule broken, `view` a waveform, `demo` records a
//! small cache in threads, `dump` prints a trace as text, and `assemble` writes the trace of a text. `score help
//! COMMAND` says more of each. The status is 0 for a yes, 1 for a no and 2 for a refusal.
#![tactic(auto)]

mod assemble;
mod check;
mod configuration;
mod cover;
mod demo;
mod dump;
mod ending;
mod explain;
mod hint;
mod map;
mod output;
mod progress;
mod shrink;
mod stats;
mod trace;
mod view;
mod watch;

use assemble::assemble;
use check::check;
use command_line::{CommandFault, Request, STANDARD, asked};
use cover::cover;
use demo::demo;
use dump::dump;
use ending::Ending;
use explain::explain;
use hint::{hint, hint_of_words, hint_of_writing};
use run_engine::{InputFault, Line};
use shrink::shrink;
use stats::stats;
use std::io;
use std::io::{ErrorKind, IsTerminal};
use std::process::ExitCode;
use std::rt::{Env, Files};
use std::sync::Wait;
use std::thread::Threads;
use view::view;
use watch::watch;

fn refused<T: Print>(rt: &T, why: InputFault) -> io::Result<Ending> {
    let line = Line::Refused(why);
    println!(rt; "{line}")?;
    Ok(Ending::Refused)
}

/// The words of the command line, the program's own name first.
fn words_of<T: Env + AllocGlobal>(rt: &T) -> Result<Vec<String>, InputFault> {
    let mut words: Vec<String> = Vec::new(rt.alloc());
    match std::env::args(rt) {
        Ok(args) => {
            for word in args {
                if words.push(word).is_err() {
                    return Err(InputFault::Memory);
                }
            }
            Ok(words)
        }
        Err(e) if e.kind() == ErrorKind::OutOfMemory => Err(InputFault::Memory),
        Err(_) => Err(InputFault::Usage),
    }
}

/// Does what was asked for. `on_terminal` says whether standard error is a terminal.
fn answer<
    T: Print + Eprint + Input + Files + AllocGlobal + Threads + Wait + Sync + Send + Copy + 'static,
>(rt: &T, request: &Request<'_>, on_terminal: bool) -> io::Result<Ending>
where
    T::File: Drop,
{
    match *request {
        Request::Check {
            config,
            ref traces,
            options,
        } => check(rt, config, traces, options, on_terminal),
        Request::Stats {
            config,
            trace,
            progress,
        } => stats(rt, config, trace, progress, on_terminal),
        Request::Explain {
            config,
            trace,
            options,
        } => explain(rt, config, trace, options, on_terminal),
        Request::Cover {
            config,
            trace,
            dat,
            progress,
        } => cover(rt, config, trace, dat, progress, on_terminal),
        Request::Shrink {
            config,
            trace,
            out,
            options,
        } => shrink(rt, config, trace, out, options, on_terminal),
        Request::View {
            config,
            trace,
            out,
            options,
        } => view(rt, config, trace, out, options, on_terminal),
        Request::Demo { config, out } => demo(rt, config, out),
        Request::Watch { config, trace } => watch(rt, config, trace),
        Request::Dump { trace, options } => dump(rt, trace, options),
        Request::Assemble { text, out } => assemble(rt, text, out),
    }
}

/// Does what was asked for, and tells a terminal what was wrong where it was refused.
fn answer_and_hint<
    T: Print + Eprint + Input + Files + AllocGlobal + Threads + Wait + Sync + Send + Copy + 'static,
>(rt: &T, request: Request<'_>, on_terminal: bool) -> io::Result<Ending>
where
    T::File: Drop,
{
    let ending = answer(rt, &request, on_terminal)?;
    if on_terminal {
        hint(rt, &request, &ending)?;
    }
    Ok(ending)
}

fn start<
    T: Env
        + Print
        + Eprint
        + Input
        + Files
        + AllocGlobal
        + Threads
        + Wait
        + Sync
        + Send
        + Copy
        + 'static,
>(rt: &T, on_terminal: bool) -> io::Result<Ending>
where
    T::File: Drop,
{
    let words = match words_of(rt) {
        Ok(words) => words,
        Err(why) => return refused(rt, why),
    };
    match asked(rt.alloc(), words.as_slice()) {
        Ok(request) => answer_and_hint(rt, request, on_terminal),
        Err(CommandFault::Help(help)) => {
            let told = match print!(rt; "{help}") {
                Ok(()) => Ok(Ending::Done),
                Err(why) => Err(why),
            };
            Ending::unless_unread(told)
        }
        Err(CommandFault::Memory) => refused(rt, InputFault::Memory),
        Err(CommandFault::Usage(fault)) => {
            let ending = refused(rt, InputFault::Usage)?;
            if on_terminal {
                hint_of_words(rt, &fault, words.as_slice())?;
            }
            Ok(ending)
        }
    }
}

fn main(rt: HostRuntime) -> ExitCode {
    let on_terminal = rt.stderr().is_terminal();
    match start(&rt, on_terminal) {
        Ok(ending) => ending.code(),
        Err(why) => {
            if on_terminal {
                let _ = hint_of_writing(&rt, STANDARD, why);
            }
            Ending::Refused.code()
        }
    }
}
