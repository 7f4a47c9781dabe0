//! The law that joins a verdict with the plain machine: `lf_model::recheck` accepts the order of a yes.
//!
//! It stands above `lf_verdict` and `lf_model`, so that the verdict stands on neither the plain machine nor its
//! proofs. The function only calls the laws from which its own follows.
#![tactic(auto)]

ghost use Rattle.model_rechecked.specs.Rechecked.{YesIsRechecked};

use lf_codec::one_trace;
use lf_model::rechecks_are_one;
use lf_rules::orders_interleave;
use lf_verdict::yes_is_legal;

/// `lf_model::recheck` accepts the order of a yes, and answers nothing else to it.
pub fn yes_is_rechecked()
    ensures { YesIsRechecked }
{
    yes_is_legal();
    orders_interleave();
    rechecks_are_one();
    one_trace();
}
