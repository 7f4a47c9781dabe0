//! The laws of the join's answers. Each function has an empty body: its contract is the law.

ghost use Rattle.lf_join.specs.Laws.{LeastOrdersAreOne, StuckRingsAdmitNone, StuckRingsAreOne};
ghost use Rattle.lf_join.specs.Progress.{EntriesStay};

/// The answer of a join is one: there is one least order at most; where a ring is met there is no
/// order; and however the logs went, the same ring is met.
pub fn joins_are_one()
    ensures order { LeastOrdersAreOne }
    ensures none { StuckRingsAdmitNone }
    ensures ring { StuckRingsAreOne }
{}

/// An entry that does not go when it comes is left, whatever came before it.
pub fn entries_stay()
    ensures { EntriesStay }
{}
