//! What a call answers.

ghost use Rattle.std.specs.Prelude.{◌≡◌};
ghost use Rattle.library_c.specs.Answers.{status_of, broken_status};

use lf_verdict::{Broken, Outcome};

/// It did what it is for: a yes, where a verdict was asked for.
pub(crate) const FINE: u32 = 0;
/// A no, or a part that is at fault for good.
pub(crate) const BROKEN: u32 = 1;
/// The input cannot be judged, or memory ran out.
pub(crate) const REFUSED: u32 = 2;
/// The board is not open, or it is and should not be.
pub(crate) const MISUSED: u32 = 3;

/// The status, and the length of the line in bytes: 0, where there is none, or where memory ran out in telling it.
#[repr(C)]
#[derive(Clone, Copy)]
pub struct Answer {
    pub status: u32,
    pub length: usize,
}

impl Answer {
    /// With no line.
    pub(crate) fn silent(status: u32) -> Answer
        ensures status { result.status ≡ status }
        ensures length { result.length ≡ 0 }
    {
        Answer { status, length: 0 }
    }
}

/// The status of the verdict, as that of the program.
pub(crate) fn status_of(outcome: &Outcome) -> u32
    ensures { result ≡ status_of outcome.now }
{
    match outcome {
        Outcome::Yes { .. } => FINE,
        Outcome::No(_) => BROKEN,
        Outcome::Refused(_) => REFUSED,
    }
}

/// The status of what broke for good, as that of `score watch`.
pub(crate) fn broken_status(found: &Broken) -> u32
    ensures { result ≡ broken_status found.now }
{
    match found {
        Broken::Header(_) => REFUSED,
        Broken::Part { .. } => BROKEN,
    }
}
