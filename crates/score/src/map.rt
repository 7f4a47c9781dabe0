//! The times that a recorder wrote beside a trace.

use crate::configuration::bytes_within;
use explain_lines::{MapCause, MapFault, Times};
use std::io::ErrorKind;
use std::rt::Files;
use std::{fmt, io};

/// The most bytes that a map may have.
const MOST_BYTES: u32 = u32::MAX;

/// Why there are no times.
#[derive(Clone, Copy)]
pub enum MapRefusal {
    /// The file cannot be read or is too long.
    Read,
    /// Its bytes are not UTF-8.
    NotText,
    /// A growth was refused.
    Memory,
    /// A line is of another form.
    Fault(MapFault),
}

impl fmt::Display for MapRefusal {
    fn fmt<W: fmt::Write>(&self, f: &mut fmt::Formatter<W>) -> fmt::Result {
        match self {
            MapRefusal::Read => write!(f, "read map"),
            MapRefusal::NotText => write!(f, "map NotText"),
            MapRefusal::Memory => write!(f, "memory"),
            MapRefusal::Fault(fault) => write!(f, "{fault}"),
        }
    }
}

fn refusal_of_read(kind: ErrorKind) -> MapRefusal {
    match kind {
        ErrorKind::OutOfMemory => MapRefusal::Memory,
        _ => MapRefusal::Read,
    }
}

fn refusal_of(fault: MapFault) -> MapRefusal {
    match fault.cause {
        MapCause::OutOfMemory => MapRefusal::Memory,
        _ => MapRefusal::Fault(fault),
    }
}

/// The bytes of the file at this path.
fn bytes_of<T: Files + AllocGlobal>(rt: &T, path: &str) -> io::Result<Vec<u8>>
where
    T::File: Drop,
{
    bytes_within(rt.alloc(), std::fs::open(rt, path)?, MOST_BYTES)
}

/// The times in the map at this path.
fn times_at<T: Files + AllocGlobal>(rt: &T, path: &str) -> Result<Times, MapRefusal>
where
    T::File: Drop,
{
    let bytes = match bytes_of(rt, path) {
        Ok(bytes) => bytes,
        Err(e) => return Err(refusal_of_read(e.kind())),
    };
    let Ok(text) = std::str::from_utf8(&bytes) else {
        return Err(MapRefusal::NotText);
    };
    Times::parse(rt.alloc(), text).map_err(refusal_of)
}

/// The times in the map at this path, where there is one.
pub fn times_if<T: Files + AllocGlobal>(
    rt: &T,
    path: Option<&str>,
) -> Result<Option<Times>, MapRefusal>
where
    T::File: Drop,
{
    match path {
        Some(path) => Ok(Some(times_at(rt, path)?)),
        None => Ok(None),
    }
}
