//! Why a text is no configuration.

ghost use Rattle.std.specs.Prelude.{◌≡◌};
ghost use Rattle.lf_config.specs.declared.fault.ConfigFault.TheVariants as faults;

use crate::key::Key;
use lf_rules::NoMemory;

/// The first fault of a text. Faults of one sort are told in the order of the keys, and the sorts in
/// this order, out of memory where it was met.
#[derive(Debug, PartialEq, Eq, Drop)]
pub enum ConfigFault {
    /// The text is no TOML document.
    NotToml,
    /// A key of this name is none of the configuration's. A key of a level has `level1.` or `level2.`
    /// before its name.
    Unknown(String),
    /// The key has to be there and is not.
    Missing(Key),
    /// The value is of another type.
    Kind(Key),
    /// The value is none of those that the key may have.
    Range(Key),
    /// A growth was refused.
    NoMemory,
}

impl From<NoMemory> for ConfigFault {
    ghost from_gives = { λ _ fault. fault ≡ faults.NoMemory };

    fn from(_: NoMemory) -> ConfigFault {
        ConfigFault::NoMemory
    }
}
