//! `score dump`: prints the text of a trace.

use crate::ending::Ending;
use crate::progress::Answer;
use crate::trace::Trace;
use command_line::DumpOptions;
use run_engine::Counted;
use std::io;
use std::rt::Files;
use text_dump::{Choice, dump_chosen};

/// The lines that are asked for.
fn choice_of(options: DumpOptions) -> Choice {
    Choice {
        port: options.port,
        bank: options.bank,
        block: options.block,
        tag: options.tag,
        from: options.from,
        last: options.last,
    }
}

/// Prints the text of the trace, or a part of it where something is chosen.
pub fn dump<T: Print + Eprint + Input + Files + AllocGlobal>(
    rt: &T,
    trace: &str,
    options: DumpOptions,
) -> io::Result<Ending>
where
    T::File: Drop,
{
    let choice = choice_of(options);
    let mut reader = Counted::new(Trace::open(rt, trace));
    let mut writer = Counted::new(Answer::new(rt, io::writer(rt), false));
    let told = if choice == Choice::default() {
        text_dump::dump(rt, &mut reader, &mut writer, u32::MAX)
    } else {
        dump_chosen(rt, &mut reader, &mut writer, u32::MAX, choice)
    };
    Ending::unless_unread(
        writer.inner().ending(match told {
            Ok(None) => Ending::Done,
            _ => Ending::Refused,
        }),
    )
}
