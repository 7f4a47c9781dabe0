//! What a part of the check answers.

ghost use Rattle.std.specs.Prelude.{◌≡◌};

use crate::rule::Rule;
use std::alloc::{AllocError, AllocFailed};

/// A growth was refused.
#[derive(Clone, Copy, Debug, PartialEq, Eq)]
pub struct NoMemory;

impl From<AllocError> for NoMemory {
    ghost from_gives = { λ _ fault. fault ≡ record {} };

    fn from(_: AllocError) -> NoMemory {
        NoMemory
    }
}

/// The value that was not stored is dropped.
impl<T: Drop> From<AllocFailed<T>> for NoMemory {
    ghost from_gives = { λ _ fault. fault ≡ record {} };

    fn from(_: AllocFailed<T>) -> NoMemory {
        NoMemory
    }
}

/// What the replay of one port or of one bank found.
#[derive(Clone, Copy, Debug, PartialEq, Eq)]
pub enum Outcome {
    /// The records are a run.
    Passed,
    /// The record at this place is the first that does not continue a run, and the rule is its first
    /// that fails. The place counts from 0 in the port's log, or is the bank's number.
    Broken(u32, Rule),
    /// A growth was refused.
    NoMemory,
}
