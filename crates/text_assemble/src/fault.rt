//! Why a text gives no trace.

ghost use Rattle.std.specs.Prelude.{◌≡◌, Some};
ghost use Rattle.text_assemble.specs.Text.{part_text, fault_text};

use lf_codec::CodecCause;
use std::alloc::AllocError;
use std::fmt;
use text_parse::TextFault;

/// What a line may say at its place.
#[derive(Clone, Copy, PartialEq, Eq)]
pub enum Part {
    /// The header.
    Lfts,
    /// A memory record.
    Memory,
    /// An event record, or the end.
    Event,
    /// Nothing, since the end was before.
    Nothing,
}

impl fmt::Display for Part {
    ghost output = { λ part. Some (part_text part) };

    fn fmt<W: fmt::Write>(&self, f: &mut fmt::Formatter<W>) -> fmt::Result {
        f.write_str(match self {
            Part::Lfts => "lfts",
            Part::Memory => "memory",
            Part::Event => "an event or end",
            Part::Nothing => "no more lines",
        })
    }
}

/// Why a text gives no trace.
#[derive(Clone, Copy, PartialEq, Eq)]
pub enum AssembleCause {
    /// A line cannot be read.
    Text(TextFault),
    /// A line says something else than what is due.
    Part(Part),
    /// A block or an event carries another number of bytes than this.
    Bytes { len: u32 },
    /// An eviction from level two has another number of masks than this.
    Masks { count: u16 },
    /// A header before version 3 has a factor other than 1.
    Factor,
    /// The format forbids what the line says.
    Format(CodecCause),
    /// A growth was refused.
    Memory,
}

impl From<AllocError> for AssembleCause {
    ghost use Rattle.text_assemble.specs.declared.fault.AssembleCause.TheVariants.{Memory};

    ghost from_gives = { λ _ cause. cause ≡ Memory };

    fn from(_: AllocError) -> AssembleCause {
        AssembleCause::Memory
    }
}

/// Why a text gives no trace, and the line at which that shows.
#[derive(Clone, Copy, PartialEq, Eq)]
pub struct AssembleFault {
    /// The line, from 1 on.
    pub line: u64,
    pub cause: AssembleCause,
}

impl fmt::Display for AssembleFault {
    ghost output = { λ fault. Some (fault_text fault) };

    fn fmt<W: fmt::Write>(&self, f: &mut fmt::Formatter<W>) -> fmt::Result {
        let line = self.line;
        match self.cause {
            AssembleCause::Text(fault) => write!(f, "text line={line} {fault}"),
            AssembleCause::Part(part) => write!(f, "text line={line} expected {part}"),
            AssembleCause::Bytes { len } => write!(f, "text line={line} expected {len} bytes"),
            AssembleCause::Masks { count } => write!(f, "text line={line} expected {count} masks"),
            AssembleCause::Factor => {
                write!(f, "text line={line} expected factor=1 before version 3")
            }
            AssembleCause::Format(cause) => write!(f, "format {cause} line={line}"),
            AssembleCause::Memory => f.write_str("memory"),
        }
    }
}
