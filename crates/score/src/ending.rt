//! How a command ends.

use lf_verdict::{Conclusion, Outcome};
use run_engine::RunFault;
use std::io;
use std::io::ErrorKind;
use std::process::ExitCode;

const NO: u8 = 1;

const REFUSED: u8 = 2;

/// How a command ended. Its line is printed by then.
#[derive(Clone, Copy)]
pub enum Ending {
    /// The answer is a yes, or there is none and the work is done.
    Done,
    No,
    Refused,
    /// A file was not written, for this reason.
    Unwritten(io::Error),
}

impl Ending {
    pub fn of(outcome: &Outcome) -> Ending {
        match outcome {
            Outcome::Yes { .. } => Ending::Done,
            Outcome::No(_) => Ending::No,
            Outcome::Refused(_) => Ending::Refused,
        }
    }

    /// Where complete traces are asked for, a request without a reply is a no.
    pub fn of_answer(answer: &Result<Conclusion, RunFault>, complete: bool) -> Ending {
        match answer {
            Ok(conclusion) if complete && conclusion.incomplete.is_some() => Ending::No,
            Ok(conclusion) => Ending::of(&conclusion.outcome),
            Err(_) => Ending::Refused,
        }
    }

    /// Where nobody reads the rest of what a command prints, its reader has what it wants, and the work is done.
    pub fn unless_unread(told: io::Result<Ending>) -> io::Result<Ending> {
        match told {
            Err(why) if why.kind() == ErrorKind::BrokenPipe => Ok(Ending::Done),
            told => told,
        }
    }

    /// The one that has the greater status.
    pub fn worse(self, other: Ending) -> Ending {
        match self {
            Ending::Done => other,
            Ending::No if !matches!(other, Ending::Done) => other,
            _ => self,
        }
    }

    /// The status of the program.
    pub fn code(self) -> ExitCode {
        match self {
            Ending::Done => ExitCode::SUCCESS,
            Ending::No => ExitCode::from(NO),
            Ending::Refused | Ending::Unwritten(_) => ExitCode::from(REFUSED),
        }
    }
}
