//! The laws of what a run writes. Each function only calls the laws from which its own follows.

ghost use Rattle.run_engine.specs.Watching.{WatchesAreOne};

use lf_codec::{fault_so_far, faults_stand};
use lf_verdict::{one_is_earliest, verdicts_are_one};

/// What is told of what broke depends on the trace alone, and not on the pieces in which a reader answers its bytes: it
/// is the first record upon which something broke for good, or the first fault of the format, whichever comes first.
/// Only where memory runs out that is told.
pub fn watches_are_one()
    ensures { WatchesAreOne }
{
    one_is_earliest();
    verdicts_are_one();
    fault_so_far();
    faults_stand();
}
