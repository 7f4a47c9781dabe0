//! The record that is sought.

ghost use Rattle.std.specs.Prelude.{◌≡◌};
ghost use Rattle.wave_order.specs.OrderTo.{counts_entry, is_entry_sought};

/// Bank and number of a record, and its log.
#[derive(Clone, Copy, PartialEq, Eq)]
pub(crate) struct Entry {
    pub log: u8,
    pub bank: u8,
    pub number: u32,
}

/// Which record of a trace is sought.
#[derive(Clone, Copy, PartialEq, Eq)]
pub enum Sought {
    /// None.
    Nothing,
    /// The one before which so many stand in its log.
    InLog { log: u8, at: u32 },
    /// The one that has this number of the bank.
    InBank { bank: u8, number: u32 },
}

impl Sought {
    /// Whether the record stands in the log in which one is sought.
    pub(crate) fn counts(self, entry: Entry) -> bool
        ensures { result ≡ counts_entry self entry }
    {
        match self {
            Sought::InLog { log, .. } => entry.log == log,
            _ => false,
        }
    }

    /// Whether the record is the one that is sought, where so many stand before it in its log.
    pub(crate) fn is(self, before: u64, entry: Entry) -> bool
        ensures { result ≡ is_entry_sought self before entry }
    {
        match self {
            Sought::Nothing => false,
            Sought::InLog { log, at } => entry.log == log && before == u64::from(at),
            Sought::InBank { bank, number } => entry.bank == bank && entry.number == number,
        }
    }
}
