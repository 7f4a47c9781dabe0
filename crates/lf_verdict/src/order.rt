//! The order of all logs.

ghost use Rattle.std.specs.Prelude.{◌≡◌, ◌≤◌, ◌^◌, length, IfOk, IfErr};
ghost use Rattle.std.specs.List.{All};
ghost use Rattle.lf_rules.specs.Order.{IsLeastOrder};
ghost use Rattle.lf_rules.specs.Ring.{skeletons_of};
ghost use Rattle.lf_rules.specs.Lists.{lists_of};
ghost use Rattle.lf_join.specs.Join.{skeleton_lists, BanksAreWhole};
ghost use Rattle.lf_verdict.specs.inner.Jobs.{AllAreWhole, IsOrderEnding};

use crate::answer::Fault;
use crate::early_end::Ending;
use lf_join::{JoinFault, join};
use lf_logs::skeletons;
use lf_rules::{Logs, Skeleton};
use std::alloc::Global;

/// The least order that keeps the order of each log's entries and each bank's numbers, or the logs that
/// wait for one another.
pub fn least_order(alloc: Global, logs: &[Skeleton]) -> Result<Vec<u8>, Ending>
    requires few { length logs.now ≤ 32 }
    requires short { All (λ entries. length entries ≤ 2 ^ 24) (skeleton_lists logs.now) }
    requires whole { BanksAreWhole (skeleton_lists logs.now) }
    ensures order { IfOk result (λ order. IsLeastOrder (skeleton_lists logs.now) order.items) }
    ensures ring { IfErr result (IsOrderEnding (skeleton_lists logs.now)) }
{
    match join(alloc, logs) {
        Ok(order) => Ok(order),
        Err(JoinFault::Cycle(ring)) => Err(Ending::Fault(Fault::Cycle(ring))),
        Err(JoinFault::NoMemory) => Err(Ending::NoMemory),
    }
}

/// An order of the records of the logs.
pub fn order_of(alloc: Global, logs: &Logs) -> Result<Vec<u8>, Ending>
    requires few { length logs.now.items ≤ 32 }
    requires short { All (λ log. length log.items ≤ 2 ^ 24) logs.now.items }
    requires whole { AllAreWhole (lists_of logs.now) }
    ensures order { IfOk result (λ order. IsLeastOrder (skeletons_of (lists_of logs.now)) order.items) }
    ensures ring { IfErr result (IsOrderEnding (skeletons_of (lists_of logs.now))) }
{
    let all = skeletons(alloc, logs)?;
    least_order(alloc, &all)
}
