//! What the plain machine answers.

use lf_rules::Rule;

/// What the plain machine answers to an order of the logs.
#[derive(Clone, Copy, PartialEq, Eq)]
pub enum Recheck {
    /// The order names a run of all records.
    Accepted,
    /// At this place the named log does not exist, has no record left, or its next record does not
    /// carry its bank's next number; or the order ends here while records are left.
    NotAnOrder(u32),
    /// The record at this place breaks this rule first.
    Broken(u32, Rule),
}
