//! The lines of a search for a smaller trace.

ghost use Rattle.std.specs.Prelude.{Some};
ghost use Rattle.lf_verdict.specs.Text.{fault_text};
ghost use Rattle.run_shrink.specs.Broken.{fault_of};
ghost use Rattle.run_shrink.specs.Text.{shrunk_text, shrinking_text};

use crate::broken::RuleFault;
use crate::shrink::{Shrinking, Shrunk};
use run_engine::Line;
use std::fmt;

/// What a no says of the fault.
impl fmt::Display for RuleFault {
    ghost output = { λ fault. Some (fault_text (fault_of fault)) };

    fn fmt<W: fmt::Write>(&self, f: &mut fmt::Formatter<W>) -> fmt::Result {
        match self {
            RuleFault::Port { port, at, rule } => write!(f, "port={port} event={at} rule={rule}"),
            RuleFault::Bank { bank, number, rule } => {
                write!(f, "bank={bank} number={number} rule={rule}")
            }
        }
    }
}

/// The verdict of the smallest trace, and on a line of its own how far the search came.
impl fmt::Display for Shrunk {
    ghost output = { λ shrunk. Some (shrunk_text shrunk) };

    fn fmt<W: fmt::Write>(&self, f: &mut fmt::Formatter<W>) -> fmt::Result {
        let fault = self.fault;
        let before = self.before;
        let (events, left, checks) = (self.events, self.left, self.checks);
        writeln!(f, "no {fault}")?;
        write!(
            f,
            "shrunk events={events} to={left} checks={checks} was {before}"
        )
    }
}

/// What is printed of a search, without the last newline.
impl fmt::Display for Shrinking {
    ghost output = { λ shrinking. Some (shrinking_text shrinking) };

    fn fmt<W: fmt::Write>(&self, f: &mut fmt::Formatter<W>) -> fmt::Result {
        match self {
            Shrinking::Judged(outcome) => {
                let line = Line::Concluded(outcome);
                write!(f, "{line}")
            }
            Shrinking::Shrunk(shrunk) => write!(f, "{shrunk}"),
        }
    }
}
