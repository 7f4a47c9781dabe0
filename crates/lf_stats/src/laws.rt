//! The laws of the counts. Each function has an empty body: its contract is the law.

ghost use Rattle.lf_stats.specs.Tally.{CountsAreStatistics, SliceRunsAcceptIssued};

/// In a run of a bank each request is accepted after its issue.
pub fn slice_runs_accept_issued()
    ensures { SliceRunsAcceptIssued }
{}

/// A bank's counts are its statistics, where the records that came of it were counted in the order of their numbers and
/// the trace is whole.
pub fn counts_are_statistics()
    ensures { CountsAreStatistics }
{}
