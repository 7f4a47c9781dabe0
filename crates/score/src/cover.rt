//! `score cover`: judges a trace, and prints which situations one that is legal reached.

ghost use Rattle.std.specs.Prelude.{IfOk};
ghost use Rattle.lf_rules.specs.InRange.{IsShape};

use crate::configuration::{bytes_at, bytes_within, text_in};
use crate::ending::Ending;
use crate::output::{put, refuse_write};
use crate::progress::{Answer, clear, reader_of};
use crate::refused;
use lf_rules::Shape;
use lf_verdict::{Outcome, Refusal};
use run_engine::{Counted, InputFault, Line, run_on, shape_for};
use run_report::{Cover, CoverageForm};
use std::io;
use std::io::{ErrorKind, Read, Write};
use std::rt::Files;
use std::thread::Threads;

/// Prints the lines of the coverage, or that of the verdict.
fn print_cover<
    T: Eprint + AllocGlobal + Threads + Sync + Send + Copy + 'static,
    R: Read + Drop,
    W: Write + Drop,
>(rt: &T, found: Result<Shape, Refusal>, trace: R, writer: Answer<'_, T, W>) -> io::Result<Ending>
    requires { IfOk found IsShape }
{
    let mut reader = Counted::new(trace);
    let mut writer = Counted::new(writer);
    let ask = Cover {
        form: CoverageForm::Lines,
    };
    let answer = run_on(rt, &mut reader, &mut writer, found, 1, &ask, u32::MAX);
    writer.inner().ending(Ending::of_answer(&answer, false))
}

fn tell_outcome<T: Print>(rt: &T, outcome: &Outcome) -> io::Result<Ending> {
    let line = Line::Concluded(outcome);
    println!(rt; "{line}")?;
    Ok(Ending::of(outcome))
}

/// Writes Verilator's file of a trace that is legal, and only then prints the lines.
fn write_cover<T: Print + Eprint + Files + AllocGlobal + Threads + Sync + Send + Copy + 'static>(
    rt: &T,
    shape: &Shape,
    trace: &[u8],
    dat: &str,
) -> io::Result<Ending>
where
    T::File: Drop,
    requires { IsShape shape.now }
{
    let mut reader = Counted::new(trace);
    let mut writer = Counted::new(Vec::new(rt.alloc()));
    let ask = Cover {
        form: CoverageForm::Data,
    };
    let answer = run_on(rt, &mut reader, &mut writer, Ok(*shape), 1, &ask, u32::MAX);
    let Ok(conclusion) = answer else {
        return refused(rt, InputFault::Memory);
    };
    if !matches!(&conclusion.outcome, Outcome::Yes { .. }) {
        return tell_outcome(rt, &conclusion.outcome);
    }
    if let Err(why) = put(rt, dat, writer.inner().as_slice()) {
        return refuse_write(rt, dat, why);
    }
    print_cover(
        rt,
        Ok(*shape),
        trace,
        Answer::new(rt, io::writer(rt), false),
    )
}

/// Keeps the trace, since it is read twice. `clears` says whether the terminal shows how far the reading is.
fn keep_and_write<
    T: Print + Eprint + Files + AllocGlobal + Threads + Sync + Send + Copy + 'static,
    R: Read + Drop,
>(rt: &T, shape: &Shape, trace: R, dat: &str, clears: bool) -> io::Result<Ending>
where
    T::File: Drop,
    requires { IsShape shape.now }
{
    let kept = bytes_within(rt.alloc(), trace, u32::MAX);
    if clears {
        clear(rt);
    }
    match kept {
        Ok(kept) => write_cover(rt, shape, kept.as_slice(), dat),
        Err(e) if e.kind() == ErrorKind::OutOfMemory => refused(rt, InputFault::Memory),
        Err(_) => {
            println!(rt; "refused read trace")?;
            Ok(Ending::Refused)
        }
    }
}

/// Judges the configuration before the trace is read. `dat` is the file to write for Verilator, where there is one.
pub fn cover<
    T: Print + Eprint + Input + Files + AllocGlobal + Threads + Sync + Send + Copy + 'static,
>(
    rt: &T,
    config: &str,
    trace: &str,
    dat: Option<&str>,
    progress: bool,
    on_terminal: bool,
) -> io::Result<Ending>
where
    T::File: Drop,
{
    let read = bytes_at(rt, config);
    let text = match text_in(&read) {
        Ok(text) => text,
        Err(why) => return refused(rt, why),
    };
    let clears = progress && on_terminal;
    let reader = reader_of(rt, trace, progress, on_terminal);
    let found = shape_for(rt.alloc(), text, 1);
    let Some(dat) = dat else {
        return print_cover(rt, found, reader, Answer::new(rt, io::writer(rt), clears));
    };
    match found {
        Ok(shape) => keep_and_write(rt, &shape, reader, dat, clears),
        Err(refusal) => tell_outcome(rt, &Outcome::Refused(refusal)),
    }
}
