//! `score explain`: judges a trace, and prints why the verdict is what it is.

use crate::configuration::{bytes_at, text_in};
use crate::ending::Ending;
use crate::map::times_if;
use crate::progress::{Answer, reader_of};
use command_line::ExplainOptions;
use explain_json::{no_memory_json, refused_json};
use lf_rules::NoMemory;
use run_engine::Counted;
use run_report::{Asked, run_explain, run_explain_json};
use std::alloc::Global;
use std::rt::Files;
use std::thread::Threads;
use std::{fmt, io};

/// The JSON of a trace that is not judged.
fn json_of<D: fmt::Display>(alloc: Global, why: &D) -> Result<String, NoMemory> {
    let line = format!(in alloc; "refused {why}")?;
    refused_json(alloc, line.as_str())
}

/// Prints why the trace is not judged.
fn not_judged<T: Print + AllocGlobal, D: fmt::Display>(
    rt: &T,
    why: &D,
    json: bool,
) -> io::Result<Ending> {
    if json {
        let answer = json_of(rt.alloc(), why);
        let text = match &answer {
            Ok(text) => text.as_str(),
            Err(NoMemory) => no_memory_json(),
        };
        print!(rt; "{text}")?;
    } else {
        println!(rt; "refused {why}")?;
    }
    Ok(Ending::Refused)
}

/// Judges the configuration and reads the map before the trace is read.
pub fn explain<
    T: Print + Eprint + Input + Files + AllocGlobal + Threads + Sync + Send + Copy + 'static,
>(
    rt: &T,
    config: &str,
    trace: &str,
    options: ExplainOptions<'_>,
    on_terminal: bool,
) -> io::Result<Ending>
where
    T::File: Drop,
{
    let read = bytes_at(rt, config);
    let text = match text_in(&read) {
        Ok(text) => text,
        Err(why) => return not_judged(rt, &why, options.json),
    };
    let times = match times_if(rt, options.map) {
        Ok(times) => times,
        Err(why) => return not_judged(rt, &why, options.json),
    };
    let asked = Asked {
        most: options.events,
        times: times.as_ref(),
        complete: options.complete,
        first: options.first,
    };
    let mut reader = Counted::new(reader_of(rt, trace, options.progress, on_terminal));
    let answer = Answer::new(rt, io::writer(rt), options.progress && on_terminal);
    let mut writer = Counted::new(answer);
    if options.json {
        let answer = run_explain_json(rt, &mut reader, &mut writer, text, &asked, u32::MAX);
        return writer
            .inner()
            .ending(Ending::of_answer(&answer, asked.complete));
    }
    let answer = run_explain(rt, &mut reader, &mut writer, text, &asked, u32::MAX);
    writer
        .inner()
        .ending(Ending::of_answer(&answer, asked.complete))
}
