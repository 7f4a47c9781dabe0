//! The laws of `recheck`'s answers. Each function has an empty body: its contract is the law.

ghost use Rattle.lf_model.specs.Recheck.{RechecksAreOne};

/// To an order of the logs there is one answer of `recheck`.
pub fn rechecks_are_one()
    ensures { RechecksAreOne }
{}
