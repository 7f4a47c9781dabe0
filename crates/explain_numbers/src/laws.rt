//! The law of records that wait for one another. The function has an empty body: its contract is the law.

ghost use Rattle.explain_numbers.specs.Cycle.{WaitsAreChains};

/// Where knots are a ring in the logs of a trace, each record that waits comes after the one that it waits for, by the
/// numbers of a bank, and that one after the next that waits, by their log. So no order keeps both.
pub fn waits_are_chains()
    ensures { WaitsAreChains }
{}
