//! `score assemble`: writes the trace of a text.

use crate::configuration::bytes_within;
use crate::ending::Ending;
use crate::output::{put, refuse, refuse_write};
use crate::trace::Trace;
use run_engine::{InputFault, Line};
use std::io;
use std::io::ErrorKind;
use std::rt::Files;
use text_assemble::Refusal;

/// Writes the trace of this text, or prints why there is none.
fn write_trace<T: Print + Eprint + Files + AllocGlobal>(
    rt: &T,
    text: &[u8],
    out: &str,
) -> io::Result<Ending>
where
    T::File: Drop,
{
    match text_assemble::assemble(rt.alloc(), text) {
        Ok(bytes) => match put(rt, out, bytes.as_slice()) {
            Ok(()) => Ok(Ending::Done),
            Err(why) => refuse_write(rt, out, why),
        },
        Err(fault) => {
            let refusal = Refusal { fault, text };
            refuse(rt, out, format_args!("refused {refusal}"))
        }
    }
}

/// Writes the trace of the text in the file at this path, or in standard input for `-`, or prints why there is none.
/// A text has less than 4 GiB.
pub fn assemble<T: Print + Eprint + Input + Files + AllocGlobal>(
    rt: &T,
    text: &str,
    out: &str,
) -> io::Result<Ending>
where
    T::File: Drop,
{
    match bytes_within(rt.alloc(), Trace::open(rt, text), u32::MAX) {
        Ok(text) => write_trace(rt, text.as_slice(), out),
        Err(e) if e.kind() == ErrorKind::OutOfMemory => {
            refuse(rt, out, Line::Refused(InputFault::Memory))
        }
        Err(_) => refuse(rt, out, "refused read text"),
    }
}
