//! The law of the definitions. The function has an empty body: its contract is the law.

ghost use Rattle.explain_origins.specs.Laws.{QueuesAreOfTheRules};

/// The requests that wait, and so the one that a record accepts, are those of the rules.
pub fn queues_are_of_the_rules()
    ensures { QueuesAreOfTheRules }
{}
