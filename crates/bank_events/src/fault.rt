//! The faults of a bank.

use lf_rules::Rule;

/// Why a bank does not take a record. Its state is then as it was.
#[derive(Clone, Copy, PartialEq, Eq)]
pub enum BankFault {
    /// The first rule of the bank that the record breaks.
    Rule(Rule),
    /// The record breaks no rule, and a growth was refused.
    NoMemory,
}
