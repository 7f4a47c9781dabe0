//! Why a map is refused.

ghost use Rattle.std.specs.Prelude.{◌≡◌, Some};
ghost use Rattle.explain_lines.specs.declared.fault.MapCause.TheVariants.{OutOfMemory};
ghost use Rattle.explain_lines.specs.Text.{cause_text, fault_text};

use std::alloc::{AllocError, AllocFailed};
use std::fmt;

/// What a line of a map lacks, or that memory ran out.
#[derive(Clone, Copy, Debug, PartialEq, Eq)]
pub enum MapCause {
    /// The line does not begin with the number of a log.
    Log,
    /// Behind the log no place stands, which is a decimal number below 2^64.
    Place,
    /// Behind the place no time stands.
    Time,
    /// A line before names the record too.
    Twice,
    /// Memory ran out.
    OutOfMemory,
}

impl From<AllocError> for MapCause {
    ghost from_gives = { λ _ cause. cause ≡ OutOfMemory };

    fn from(_: AllocError) -> MapCause {
        MapCause::OutOfMemory
    }
}

/// The value that was not stored is dropped.
impl<T: Drop> From<AllocFailed<T>> for MapCause {
    ghost from_gives = { λ _ cause. cause ≡ OutOfMemory };

    fn from(_: AllocFailed<T>) -> MapCause {
        MapCause::OutOfMemory
    }
}

impl MapCause {
    /// What is expected in its place.
    fn expected(self) -> &'static str
        ensures { result.now ≡ cause_text self }
    {
        match self {
            MapCause::Log => "the number of a log, 0 to 255",
            MapCause::Place => "the place of a record in its log, a decimal number",
            MapCause::Time => "a time",
            MapCause::Twice => "a record that no line before names",
            MapCause::OutOfMemory => "more memory",
        }
    }
}

/// The first line of a map that is refused.
#[derive(Clone, Copy, Debug, PartialEq, Eq)]
pub struct MapFault {
    /// The line, from 1 on. Where memory ran out it is the line that was read then, or 0 before the first.
    pub line: u64,
    pub cause: MapCause,
}

impl fmt::Display for MapFault {
    ghost output = { λ fault. Some (fault_text fault) };

    fn fmt<W: fmt::Write>(&self, f: &mut fmt::Formatter<W>) -> fmt::Result {
        let MapFault { line, cause } = *self;
        if cause == MapCause::OutOfMemory {
            return f.write_str("out of memory");
        }
        let expected = cause.expected();
        write!(f, "map line={line} expected {expected}")
    }
}
