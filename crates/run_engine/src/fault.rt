//! Why a run gave no verdict.

use run_stream::NotWritten;
use thiserror::Error;

/// Why a run gave no verdict, or did not write its text.
#[derive(Clone, Copy, Debug, PartialEq, Eq, Error)]
pub enum RunFault {
    /// A read failed.
    #[error("the trace could not be read")]
    Read,
    /// More reads were needed than the caller allowed.
    #[error("the trace took too many reads")]
    Turns,
    /// A write failed, or took nothing.
    #[error("the line could not be written")]
    Write,
}

impl From<NotWritten> for RunFault {
    ghost use Rattle.std.specs.Prelude.{◌≡◌};
    ghost use Rattle.run_engine.specs.declared.fault.RunFault.{RunFault};

    ghost from_gives = { λ _ fault. fault ≡ RunFault.Write };

    fn from(_fault: NotWritten) -> Self {
        RunFault::Write
    }
}
