//! What broke for good, whatever bytes follow.

use crate::answer::HeaderField;
use lf_rules::Rule;

/// A fault of one part of a trace. It stands whatever records follow.
#[derive(Clone, Copy, Debug, PartialEq, Eq)]
pub enum PartFault {
    /// Two events of the bank have the number k.
    Double { bank: u8, k: u32 },
    /// The port's events before the place `at` of its log are a run of the port, and the one there fails
    /// with the rule first.
    Port { port: u8, at: u32, rule: Rule },
    /// The bank's events before this number are a run of the bank, and the one of this number fails with
    /// the rule first.
    Bank { bank: u8, number: u32, rule: Rule },
}

/// A record of a trace: its log, how many records of that log stand before it, and the offset in the trace of its
/// first byte.
#[derive(Clone, Copy, Debug, PartialEq, Eq)]
pub struct Upon {
    pub log: u8,
    pub at: u32,
    pub offset: u64,
}

/// Why no bytes that follow lead to a yes.
#[derive(Clone, Copy, Debug, PartialEq, Eq)]
pub enum Broken {
    /// The trace is one of another hierarchy.
    Header(HeaderField),
    /// A part is at fault. Where `upon` is told, that record is the first of the trace upon which any part broke, and
    /// the fault broke upon it: that of its port, where there is one, and otherwise that of its bank.
    Part {
        fault: PartFault,
        upon: Option<Upon>,
    },
}

/// The first record of a trace upon which a part broke, and the fault that is named of those that broke upon it.
#[derive(Clone, Copy)]
pub struct FirstBreak {
    pub fault: PartFault,
    pub upon: Upon,
}

/// Whether a part broke, while the records of a trace are judged one after another.
#[derive(Clone, Copy)]
pub enum Watch {
    /// None did. The next record begins at this offset.
    Whole { next: u64 },
    First(FirstBreak),
    /// Records were judged together, so it is not known upon which of them.
    Unknown,
}
