//! Why a wave stopped.

use lf_rules::NoMemory;
use run_stream::NotWritten;
use thiserror::Error;

/// Why a wave is not that of all bytes.
#[derive(Clone, Copy, Debug, PartialEq, Eq, Error)]
pub enum ViewFault {
    /// A read failed.
    #[error("the trace could not be read")]
    Read,
    /// More reads were needed than the caller allowed.
    #[error("the trace took too many reads")]
    Turns,
    /// A growth was refused.
    #[error("out of memory")]
    Memory,
    /// A write failed, or took nothing.
    #[error("the wave could not be written")]
    Write,
    /// The order does not name the records of the trace.
    #[error("the order is not that of the trace")]
    Order,
}

impl From<NotWritten> for ViewFault {
    ghost use Rattle.std.specs.Prelude.{◌≡◌};
    ghost use Rattle.wave_draw.specs.declared.fault.ViewFault.{ViewFault};

    ghost from_gives = { λ _ fault. fault ≡ ViewFault.Write };

    fn from(_fault: NotWritten) -> Self {
        ViewFault::Write
    }
}

impl From<NoMemory> for ViewFault {
    ghost use Rattle.std.specs.Prelude.{◌≡◌};
    ghost use Rattle.wave_draw.specs.declared.fault.ViewFault.{ViewFault};

    ghost from_gives = { λ _ fault. fault ≡ ViewFault.Memory };

    fn from(_fault: NoMemory) -> Self {
        ViewFault::Memory
    }
}
