//! The laws of the definitions. Each function has an empty body: its contract is the law.

ghost use Rattle.wave_traffic.specs.Laws.{FlowsAreOfTheRules, DirtySecondsAreOfTheRules};

/// The blocks that are asked for and supplied are those of the rules, and so are the dirty lines of level one.
pub fn flows_are_of_the_rules()
    ensures { FlowsAreOfTheRules }
{}

/// After a run, the dirty lines of level two are those of the rules.
pub fn dirty_seconds_are_of_the_rules()
    ensures { DirtySecondsAreOfTheRules }
{}
