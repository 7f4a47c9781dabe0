//! One order of all logs.

ghost use Rattle.std.specs.Prelude.{◌≡◌, ◌≤◌, ◌^◌, length, All, IfOk, IfErr};
ghost use Rattle.lf_join.specs.Join.{skeleton_lists, BanksAreWhole, HasNoOrder, IsStuckRing};
ghost use Rattle.lf_join.specs.Fault.{IfCycle};
ghost use Rattle.lf_join.specs.Heads.{IsMerged};
ghost use Rattle.lf_rules.specs.Order.{IsLeastOrder};
ghost use Rattle.lf_rules.specs.Ring.{IsRing};

use crate::heads::Heads;
use crate::roster::Roster;
use lf_rules::{NoMemory, Ring, Skeleton};
use std::alloc::Global;

/// Why there is no order.
#[derive(Debug, Drop)]
pub enum JoinFault {
    /// These logs wait for one another.
    Cycle(Ring),
    /// A growth was refused.
    NoMemory,
}

impl From<NoMemory> for JoinFault {
    ghost use Rattle.lf_join.specs.declared.order.JoinFault.{JoinFault};

    ghost from_gives = { λ _ fault. fault ≡ JoinFault.NoMemory };

    fn from(_: NoMemory) -> JoinFault {
        JoinFault::NoMemory
    }
}

/// The lowest logs that can go, in turn, as far as any can.
fn merged(alloc: Global, skeletons: &[Skeleton]) -> Result<(Vec<u8>, Heads), NoMemory>
    requires few { length skeletons.now ≤ 32 }
    requires whole { BanksAreWhole (skeleton_lists skeletons.now) }
    ensures { IfOk result (λ m. IsMerged (skeleton_lists skeletons.now) m.0.items m.1.places m.1.next) }
{
    let mut heads = Heads::new();
    let mut roster = Roster::new(skeletons, &heads);
    let mut order = Vec::new(alloc);
    while let Some(log) = roster.first() {
        order.push(log)?;
        roster.let_go(skeletons, &mut heads, log);
    }
    Ok((order, heads))
}

/// One order of all logs: for each place the log whose next entry comes. It keeps each log's order
/// and each bank's numbers, and of all such orders it is the lexicographically least. An entry that
/// names no bank may always go. Where there is no order, the answer is the ring of logs that wait for
/// one another when nothing more can go.
pub fn join(alloc: Global, skeletons: &[Skeleton]) -> Result<Vec<u8>, JoinFault>
    requires few { length skeletons.now ≤ 32 }
    requires short { All (λ entries. length entries ≤ 2 ^ 24) (skeleton_lists skeletons.now) }
    requires whole { BanksAreWhole (skeleton_lists skeletons.now) }

    ensures least { IfOk result (λ order. IsLeastOrder (skeleton_lists skeletons.now) order.items) }

    // Where the answer is a ring, it is the one to which the waits lead, it shows that there is no order, and
    // there is none.
    ensures ring { IfErr result (λ fault. IfCycle fault (λ ring. IsStuckRing (skeleton_lists skeletons.now)
        ring.items)) }
    ensures shown { IfErr result (λ fault. IfCycle fault (λ ring. IsRing (skeleton_lists skeletons.now) ring.items)) }
    ensures none { IfErr result (λ fault. IfCycle fault (λ _. HasNoOrder (skeleton_lists skeletons.now))) }
{
    let merged = merged(alloc, skeletons)?;
    let (order, heads) = merged;
    match heads.first_left(skeletons) {
        None => Ok(order),
        Some(start) => Err(JoinFault::Cycle(heads.ring(skeletons, start))),
    }
}
