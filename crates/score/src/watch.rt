//! `score watch`: judges a trace while it comes, and ends as soon as it broke for good.

use crate::configuration::{bytes_at, text_in};
use crate::ending::Ending;
use crate::progress::Answer;
use crate::refused;
use crate::trace::Trace;
use lf_verdict::{Broken, Conclusion};
use run_engine::{Counted, RunFault, run_watch};
use std::io;
use std::rt::Files;
use std::thread::Threads;

fn ending_of(answer: Result<Conclusion, RunFault>) -> Ending {
    let Ok(conclusion) = answer else {
        return Ending::Refused;
    };
    match conclusion.broken {
        Some(Broken::Part { .. }) => Ending::No,
        Some(Broken::Header(_)) => Ending::Refused,
        None => Ending::of(&conclusion.outcome),
    }
}

/// Judges the configuration before the trace is read.
pub fn watch<
    T: Print + Eprint + Input + Files + AllocGlobal + Threads + Sync + Send + Copy + 'static,
>(rt: &T, config: &str, trace: &str) -> io::Result<Ending>
where
    T::File: Drop,
{
    let read = bytes_at(rt, config);
    let text = match text_in(&read) {
        Ok(text) => text,
        Err(why) => return refused(rt, why),
    };
    let mut reader = Counted::new(Trace::open(rt, trace));
    let mut writer = Counted::new(Answer::new(rt, io::writer(rt), false));
    let answer = run_watch(rt, &mut reader, &mut writer, text, u32::MAX);
    writer.inner().ending(ending_of(answer))
}
