//! The places of each bank's records, in the order of their numbers.

ghost use Rattle.std.specs.Prelude.{◌≤◌, ◌^◌, length, IfOk, IfErr, OnOk};
ghost use Rattle.std.specs.List.{All};
ghost use Rattle.lf_rules.specs.Address.{FlatMemory};
ghost use Rattle.lf_rules.specs.Lists.{lists_of};
ghost use Rattle.lf_verdict.specs.inner.Ending.{IsEnding, AreWholeBelow};
ghost use Rattle.lf_verdict.specs.inner.Jobs.{AreOrders};

use crate::early_end::{Ending, number_ending};
use lf_logs::{Place, bank_order};
use lf_rules::{Logs, Shape};
use std::alloc::Global;

/// For each bank the places of its records, in the order of their numbers, or the fault of the lowest
/// bank whose numbers are not whole.
pub fn number_banks(alloc: Global, shape: &Shape, logs: &Logs) -> Result<Vec<Vec<Place>>, Ending>
    requires banks { shape.now.banks ≤ 16 }
    requires few { length logs.now.items ≤ 32 }
    requires short { All (λ log. length log.items ≤ 2 ^ 24) logs.now.items }
    ensures orders { IfOk result (λ all. AreOrders (lists_of logs.now) shape.now.banks (lists_of all)) }
    ensures whole { OnOk result (AreWholeBelow (lists_of logs.now) shape.now.banks) }
    ensures fault { (memory : FlatMemory) → IfErr result (IsEnding shape.now memory (lists_of logs.now)) }
{
    let banks = shape.banks as u8;
    let mut all = Vec::new(alloc);
    for bank in 0..banks {
        match bank_order(alloc, logs, bank) {
            Ok(places) => all.push(places)?,
            Err(fault) => return Err(number_ending(bank, fault)),
        }
    }
    Ok(all)
}
