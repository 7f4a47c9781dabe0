//! Why a dump stopped.

use lf_rules::NoMemory;
use run_stream::NotWritten;
use thiserror::Error;

/// Why a dump is not the text of all bytes.
#[derive(Clone, Copy, Debug, PartialEq, Eq, Error)]
pub enum DumpFault {
    /// A read failed.
    #[error("the trace could not be read")]
    Read,
    /// More reads were needed than the caller allowed.
    #[error("the trace took too many reads")]
    Turns,
    /// A growth was refused.
    #[error("out of memory")]
    Memory,
    /// A write failed, or took nothing.
    #[error("the text could not be written")]
    Write,
}

impl From<NotWritten> for DumpFault {
    ghost use Rattle.std.specs.Prelude.{◌≡◌};
    ghost use Rattle.text_dump.specs.declared.fault.DumpFault.{DumpFault};

    ghost from_gives = { λ _ fault. fault ≡ DumpFault.Write };

    fn from(_fault: NotWritten) -> Self {
        DumpFault::Write
    }
}

impl From<NoMemory> for DumpFault {
    ghost use Rattle.std.specs.Prelude.{◌≡◌};
    ghost use Rattle.text_dump.specs.declared.fault.DumpFault.{DumpFault};

    ghost from_gives = { λ _ fault. fault ≡ DumpFault.Memory };

    fn from(_fault: NoMemory) -> Self {
        DumpFault::Memory
    }
}
