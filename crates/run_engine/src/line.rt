//! The lines that the program prints.

ghost use Rattle.std.specs.Prelude.{◌≡◌, Some, IfOk, string_bytes};
ghost use Rattle.lf_verdict.specs.declared.answer.Refusal.{Refusal};
ghost use Rattle.lf_verdict.specs.declared.answer.Outcome.{Outcome};
ghost use Rattle.run_engine.specs.Line.{input_text, line_text, line_of, not_read_line};

use lf_rules::NoMemory;
use lf_verdict::{Incomplete, Outcome};
use std::alloc::Global;
use std::fmt;

/// Why what the program was given is not judged.
#[derive(Clone, Copy, Debug, PartialEq, Eq)]
pub enum InputFault {
    /// The words of the command line are none of a command.
    Usage,
    /// The configuration cannot be read.
    ReadConfig,
    /// The configuration is no text.
    NotToml,
    /// A growth was refused.
    Memory,
}

impl fmt::Display for InputFault {
    ghost output = { λ x. Some (input_text x) };

    fn fmt<W: fmt::Write>(&self, f: &mut fmt::Formatter<W>) -> fmt::Result {
        match self {
            InputFault::Usage => write!(f, "usage"),
            InputFault::ReadConfig => write!(f, "read config"),
            InputFault::NotToml => write!(f, "config NotToml"),
            InputFault::Memory => write!(f, "memory"),
        }
    }
}

/// What the program prints in one line.
#[derive(Clone, Copy)]
pub enum Line<'a> {
    Concluded(&'a Outcome),
    /// A request of a legal trace has no reply.
    Incomplete(Incomplete),
    Refused(InputFault),
}

impl fmt::Display for Line<'_> {
    ghost output = { λ x. Some (line_text x) };

    fn fmt<W: fmt::Write>(&self, f: &mut fmt::Formatter<W>) -> fmt::Result {
        match self {
            Line::Concluded(Outcome::Yes { events }) => write!(f, "yes events={events}"),
            Line::Concluded(Outcome::No(fault)) => write!(f, "no {fault}"),
            Line::Concluded(Outcome::Refused(refusal)) => write!(f, "refused {refusal}"),
            Line::Incomplete(request) => write!(f, "no {request}"),
            Line::Refused(fault) => write!(f, "refused {fault}"),
        }
    }
}

/// The line of the verdict.
pub fn outcome_line(alloc: Global, outcome: &Outcome) -> Result<String, NoMemory>
    ensures { IfOk result (λ text. string_bytes text ≡ line_of outcome.now) }
{
    let line = Line::Concluded(outcome);
    Ok(format!(in alloc; "{line}\n")?)
}

/// The line where the trace was not read. It takes no memory.
pub fn not_read_line() -> &'static [u8]
    ensures { result.now ≡ not_read_line }
{
    b"refused read trace\n"
}

/// The line where a growth was refused. It takes no memory.
pub fn no_memory_line() -> &'static [u8]
    ensures { result.now ≡ line_of (Outcome.Refused Refusal.Memory) }
{
    b"refused memory\n"
}
