//! The demonstration: a small cache that runs in threads, whose trace is written to a file.

ghost use Rattle.lf_rules.specs.InRange.{IsShape};

use crate::configuration::{bytes_at, text_in};
use crate::ending::Ending;
use crate::output::{put, refuse, tell};
use lf_config::{ConfigFault, read};
use lf_rules::Shape;
use recorder_demo::{DemoFault, demo_trace};
use run_engine::Line;
use std::io::ErrorKind;
use std::rt::Files;
use std::sync::Wait;
use std::thread::Threads;
use std::{fmt, io};

/// A thread that makes so many turns without an event gives up.
const DEMO_TURNS: u32 = 10_000_000;

/// What a demonstration came to.
#[derive(Drop)]
enum Demonstration {
    /// Its trace of so many events is written.
    Written(u32),
    /// The text is no configuration.
    Config(ConfigFault),
    /// There is no trace.
    Failed(DemoFault),
    /// The trace was not written, for this reason.
    Unwritten(io::Error),
}

impl Demonstration {
    fn ending(&self) -> Ending {
        match self {
            Demonstration::Written(_) => Ending::Done,
            Demonstration::Unwritten(why) => Ending::Unwritten(*why),
            _ => Ending::Refused,
        }
    }
}

impl fmt::Display for Demonstration {
    fn fmt<W: fmt::Write>(&self, f: &mut fmt::Formatter<W>) -> fmt::Result {
        match self {
            Demonstration::Written(events) => write!(f, "demo events={events}"),
            Demonstration::Config(ConfigFault::NoMemory) => write!(f, "refused memory"),
            Demonstration::Config(fault) => write!(f, "refused config {fault}"),
            Demonstration::Failed(DemoFault::Turns) => write!(f, "refused turns"),
            Demonstration::Failed(DemoFault::Memory) => write!(f, "refused memory"),
            Demonstration::Failed(DemoFault::Thread) => write!(f, "refused thread"),
            Demonstration::Unwritten(_) => write!(f, "refused write"),
        }
    }
}

/// Runs the demonstration for the shape, and then writes its trace.
fn record<T: Print + Files + AllocGlobal + Threads + Wait + Sync>(
    rt: &T,
    shape: &Shape,
    out: &str,
) -> Demonstration
where
    T::File: Drop,
    requires { IsShape shape.now }
{
    let (events, bytes) = match demo_trace(rt, shape, DEMO_TURNS) {
        Ok(demo) => demo,
        Err(fault) => return Demonstration::Failed(fault),
    };
    match put(rt, out, bytes.as_slice()) {
        Ok(()) => Demonstration::Written(events),
        Err(e) if e.kind() == ErrorKind::OutOfMemory => Demonstration::Failed(DemoFault::Memory),
        Err(why) => Demonstration::Unwritten(why),
    }
}

/// Runs the demonstration for the hierarchy that the configuration says, and writes its trace.
fn demonstrate<T: Print + Files + AllocGlobal + Threads + Wait + Sync>(
    rt: &T,
    config: &str,
    out: &str,
) -> Demonstration
where
    T::File: Drop,
{
    match read(rt.alloc(), config) {
        Ok(shape) => record(rt, &shape, out),
        Err(fault) => Demonstration::Config(fault),
    }
}

/// Reads the configuration, runs the demonstration, and tells what it came to.
pub fn demo<T: Print + Eprint + Input + Files + AllocGlobal + Threads + Wait + Sync>(
    rt: &T,
    config: &str,
    out: &str,
) -> io::Result<Ending>
where
    T::File: Drop,
{
    let bytes = bytes_at(rt, config);
    let text = match text_in(&bytes) {
        Ok(text) => text,
        Err(why) => return refuse(rt, out, Line::Refused(why)),
    };
    let demonstration = demonstrate(rt, text, out);
    tell(rt, out, &demonstration)?;
    Ok(demonstration.ending())
}
