//! What ends the reading of a trace.

ghost use Rattle.std.specs.Prelude.{◌≡◌};
ghost use Rattle.lf_codec.specs.Reader.{fault_in};
ghost use Rattle.lf_verdict.specs.declared.stop.Stop.TheVariants as stops;
ghost use Rattle.lf_verdict.specs.inner.Gathering.{IsStopOf};

use lf_codec::{CodecCause, CodecFault, Told};
use lf_rules::NoMemory;

/// What ends the reading of a trace.
#[derive(Clone, Copy, Debug, PartialEq, Eq)]
pub enum Stop {
    /// The bytes are no trace.
    Format(CodecFault),
    /// A growth was refused.
    Memory,
}

impl From<Told<CodecFault>> for Stop {
    ghost from_gives = { λ told stop. IsStopOf (fault_in told) stop };

    fn from(told: Told<CodecFault>) -> Stop {
        let fault = told.fault();
        if fault.cause == CodecCause::NoMemory {
            Stop::Memory
        } else {
            Stop::Format(fault)
        }
    }
}

impl From<NoMemory> for Stop {
    ghost from_gives = { λ _ stop. stop ≡ stops.Memory };

    fn from(_: NoMemory) -> Stop {
        Stop::Memory
    }
}
