//! Why a register does not take a target.

ghost use Rattle.std.specs.Prelude.{◌≡◌};
ghost use Rattle.lf_mshr.specs.Faults.{rule_of};

use lf_rules::Rule;

/// Why a register does not take a target, in the order in which the causes are looked at.
#[derive(Clone, Copy, Debug, PartialEq, Eq)]
pub enum RegisterFault {
    /// A primary miss to a block that a register holds.
    InFlight,
    /// A merge to a block that no register holds.
    NotInFlight,
    /// There is no such register.
    Range,
    /// The organisation wants another register.
    Wrong,
    /// The register of a primary miss is not free.
    Busy,
    /// The register of a merge has no place left.
    Full,
}

impl RegisterFault {
    /// The rule of a cache that the fault stands for.
    pub fn rule(self) -> Rule
        ensures { result ≡ rule_of self }
    {
        match self {
            RegisterFault::InFlight => Rule::PrimaryInFlight,
            RegisterFault::NotInFlight => Rule::NotInFlight,
            RegisterFault::Range => Rule::RegisterRange,
            RegisterFault::Wrong => Rule::WrongRegister,
            RegisterFault::Busy => Rule::RegisterBusy,
            RegisterFault::Full => Rule::MergeFull,
        }
    }
}
