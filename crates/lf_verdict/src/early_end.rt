//! What ends the check before a yes.

ghost use Rattle.std.specs.Prelude.{◌≡◌};
ghost use Rattle.lf_verdict.specs.declared.early_end.Ending.TheVariants as endings;
ghost use Rattle.lf_verdict.specs.inner.Ending.{number_ending};

use crate::answer::Fault;
use lf_logs::NumberFault;
use lf_rules::NoMemory;
use std::alloc::AllocFailed;

/// What ends the check before a yes.
#[derive(Drop)]
pub enum Ending {
    /// The trace is not legal.
    Fault(Fault),
    /// A growth was refused.
    NoMemory,
}

impl From<NoMemory> for Ending {
    ghost from_gives = { λ _ ending. ending ≡ endings.NoMemory };

    fn from(_: NoMemory) -> Ending {
        Ending::NoMemory
    }
}

impl<T: Drop> From<AllocFailed<T>> for Ending {
    ghost from_gives = { λ _ ending. ending ≡ endings.NoMemory };

    fn from(_: AllocFailed<T>) -> Ending {
        Ending::NoMemory
    }
}

/// What a fault of the bank's numbers says.
pub fn number_ending(bank: u8, fault: NumberFault) -> Ending
    ensures { result ≡ number_ending bank fault }
{
    match fault {
        NumberFault::Missing(k) => Ending::Fault(Fault::Missing { bank, k }),
        NumberFault::Double(k) => Ending::Fault(Fault::Double { bank, k }),
        NumberFault::NoMemory => Ending::NoMemory,
    }
}
