//! `score stats`: judges a trace, and prints what happened in one that is legal.

use crate::configuration::{bytes_at, text_in};
use crate::ending::Ending;
use crate::progress::{Answer, reader_of};
use crate::refused;
use run_engine::{Counted, Statistics, run_for};
use std::io;
use std::rt::Files;
use std::thread::Threads;

/// Judges the configuration before the trace is read.
pub fn stats<
    T: Print + Eprint + Input + Files + AllocGlobal + Threads + Sync + Send + Copy + 'static,
>(rt: &T, config: &str, trace: &str, progress: bool, on_terminal: bool) -> io::Result<Ending>
where
    T::File: Drop,
{
    let read = bytes_at(rt, config);
    let text = match text_in(&read) {
        Ok(text) => text,
        Err(why) => return refused(rt, why),
    };
    let mut reader = Counted::new(reader_of(rt, trace, progress, on_terminal));
    let mut writer = Counted::new(Answer::new(rt, io::writer(rt), progress && on_terminal));
    let ask = Statistics { ordered: false };
    let answer = run_for(rt, &mut reader, &mut writer, text, 1, &ask, u32::MAX);
    writer.inner().ending(Ending::of_answer(&answer, false))
}
