//! `score shrink`: searches for a smaller trace in which the same event breaks the same rule.

ghost use Rattle.std.specs.Prelude.{◌≡◌};

use crate::configuration::{bytes_at, text_in};
use crate::ending::Ending;
use crate::map::times_if;
use crate::output::{Target, put, refuse, refuse_write, target_of, tell};
use crate::progress::{clear, reader_by_itself};
use command_line::ShrinkOptions;
use explain_lines::Times;
use run_engine::{Counted, Line};
use run_shrink::{Asked, Observer, Place, Shrinking, Shrunk, run_shrink};
use std::alloc::{AllocError, Global};
use std::io;
use std::rt::Files;
use std::thread::Threads;

/// Shows on standard error how far the search is, where that is a terminal: one line, written over and over.
#[derive(Clone, Copy)]
struct SearchLine<'a, P> {
    rt: &'a P,
    on_terminal: bool,
}

impl<P: Eprint> Observer for SearchLine<'_, P> {
    ghost tells = { λ old checks left new. new ≡ old };

    fn judged(&mut self, checks: u32, left: usize) {
        if self.on_terminal {
            let _ = eprint!(self.rt; "\rtried {checks}, {left} events left \x1b[K");
        }
    }
}

impl<P: Eprint> SearchLine<'_, P> {
    /// Ends the line.
    fn end(&self) {
        if self.on_terminal {
            clear(self.rt);
        }
    }
}

/// The map of the trace with the events that stood at these places, by the times of these.
fn map_of(alloc: Global, times: &Times, places: &[Place]) -> Result<String, AllocError> {
    let mut counts = [0u64; 256];
    let mut map = String::new(alloc);
    for place in places {
        let log = place.log;
        let at = counts[usize::from(log)];
        counts[usize::from(log)] = at.saturating_add(1);
        if let Some(time) = times.of(log, place.at) {
            map.push_str(format!(in alloc; "{log} {at} {time}\n")?.as_str())?;
        }
    }
    Ok(map)
}

/// The name of the map beside the trace.
fn map_name(alloc: Global, out: &str) -> Result<String, AllocError> {
    let name = out.strip_suffix(".lfts").unwrap_or(out);
    format!(in alloc; "{name}.map")
}

/// Writes what was found, and beside a regular file its map, where there are times.
fn put_files<T: Print + Files + AllocGlobal>(
    rt: &T,
    out: &str,
    times: Option<&Times>,
    shrunk: &Shrunk,
) -> io::Result<()>
where
    T::File: Drop,
{
    let target = target_of(rt, out);
    put(rt, out, shrunk.bytes.as_slice())?;
    match (target, times) {
        (Target::File, Some(times)) => {
            let map = map_of(rt.alloc(), times, &shrunk.places)?;
            let name = map_name(rt.alloc(), out)?;
            put(rt, name.as_str(), map.as_bytes())
        }
        _ => Ok(()),
    }
}

/// Writes what was found, and only then tells it.
fn hand_out<T: Print + Eprint + Files + AllocGlobal>(
    rt: &T,
    out: &str,
    times: Option<&Times>,
    shrunk: &Shrunk,
) -> io::Result<Ending>
where
    T::File: Drop,
{
    if let Err(why) = put_files(rt, out, times, shrunk) {
        return refuse_write(rt, out, why);
    }
    tell(rt, out, shrunk)?;
    Ok(Ending::No)
}

/// Judges the configuration and reads the map before the trace is read, and writes nothing where there is nothing to
/// search for.
pub fn shrink<
    T: Print + Eprint + Input + Files + AllocGlobal + Threads + Sync + Send + Copy + 'static,
>(
    rt: &T,
    config: &str,
    trace: &str,
    out: &str,
    options: ShrinkOptions<'_>,
    on_terminal: bool,
) -> io::Result<Ending>
where
    T::File: Drop,
{
    let read = bytes_at(rt, config);
    let text = match text_in(&read) {
        Ok(text) => text,
        Err(why) => return refuse(rt, out, Line::Refused(why)),
    };
    let times = match times_if(rt, options.map) {
        Ok(times) => times,
        Err(why) => return refuse(rt, out, format_args!("refused {why}")),
    };
    let mut reader = Counted::new(reader_by_itself(rt, trace, "read", on_terminal));
    let mut line = SearchLine { rt, on_terminal };
    let asked = Asked {
        first: options.first,
        most: options.checks,
    };
    let outcome = run_shrink(rt, &mut reader, text, asked, u32::MAX, &mut line);
    line.end();
    match outcome {
        Ok(Shrinking::Shrunk(shrunk)) => hand_out(rt, out, times.as_ref(), &shrunk),
        Ok(Shrinking::Judged(outcome)) => {
            tell(rt, out, Line::Concluded(&outcome))?;
            Ok(Ending::of(&outcome))
        }
        Err(_) => refuse(rt, out, "refused read trace"),
    }
}
