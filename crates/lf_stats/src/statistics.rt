//! The statistics of a trace.

ghost use Rattle.std.specs.Prelude.{◌≡◌, ◌+◌, ◌<◌, ◌≤◌, ◌^◌, ℕ, length, All, IfOk};
ghost use Rattle.lf_rules.specs.InRange.{IsShape};
ghost use Rattle.lf_rules.specs.Numbers.{bank_numbers, IsWhole};
ghost use Rattle.lf_rules.specs.Lists.{lists_of};
ghost use Rattle.lf_stats.specs.Answer.{IsBankStats, AreStats};

use crate::bank::bank_stats;
use crate::counts::{BankStats, Stats};
use crate::port::unanswered;
use lf_logs::{LogRecords, places_of_bank};
use lf_rules::{Logs, NoMemory, Shape};
use std::alloc::Global;

fn of_bank<L: LogRecords>(
    alloc: Global,
    shape: &Shape,
    logs: &L,
    bank: u8,
) -> Result<BankStats, NoMemory>
    requires block { 0 < shape.now.block }
    requires few { length (L.lists logs.now) ≤ 32 }
    requires short { All (λ log. length log ≤ 2 ^ 24) (L.lists logs.now) }
    requires whole { IsWhole (bank_numbers (L.lists logs.now) bank) }
    ensures { IfOk result (λ stats. IsBankStats shape.now (L.lists logs.now) bank stats) }
{
    let Ok(places) = places_of_bank(alloc, logs, bank) else {
        return Err(NoMemory);
    };
    bank_stats(alloc, shape, logs, places.as_slice())
}

/// Counts over the records of a trace, however they are kept, whose banks' numbers are whole.
fn stats_of<L: LogRecords>(alloc: Global, shape: &Shape, logs: &L) -> Result<Stats, NoMemory>
    requires in_range { IsShape shape.now }
    requires logs { length (L.lists logs.now) ≡ shape.now.ports + shape.now.banks }
    requires short { All (λ log. length log ≤ 2 ^ 24) (L.lists logs.now) }
    requires whole { (bank : ℕ) → bank < shape.now.banks → IsWhole (bank_numbers (L.lists logs.now) bank) }
    ensures { IfOk result (AreStats shape.now (L.lists logs.now)) }
{
    let mut banks = Vec::new(alloc);
    for bank in 0..shape.banks {
        let counts = of_bank(alloc, shape, logs, bank as u8)?;
        banks.push(counts)?;
    }
    let mut ports = Vec::new(alloc);
    for port in 0..shape.ports {
        ports.push(unanswered(logs, port as u8))?;
    }
    Ok(Stats {
        banks,
        unanswered: ports,
    })
}

/// Counts over the logs of a trace whose banks' numbers are whole.
pub fn stats(alloc: Global, shape: &Shape, logs: &Logs) -> Result<Stats, NoMemory>
    requires in_range { IsShape shape.now }
    requires logs { length logs.now.items ≡ shape.now.ports + shape.now.banks }
    requires short { All (λ log. length log.items ≤ 2 ^ 24) logs.now.items }
    requires whole { (bank : ℕ) → bank < shape.now.banks → IsWhole (bank_numbers (lists_of logs.now) bank) }
    ensures { IfOk result (AreStats shape.now (lists_of logs.now)) }
{
    stats_of(alloc, shape, logs)
}
