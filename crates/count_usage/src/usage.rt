//! What a trace uses at most.

ghost use Rattle.std.specs.Prelude.{◌≡◌, ◌+◌, ◌<◌, ◌≤◌, ◌^◌, ℕ, length, All, IfOk};
ghost use Rattle.lf_rules.specs.InRange.{IsShape};
ghost use Rattle.lf_rules.specs.Numbers.{bank_numbers, IsWhole};
ghost use Rattle.count_usage.specs.Usage.{IsBankUse, IsUsage};

use crate::bank::bank_use;
use crate::level::LevelUse;
use crate::port::highest_tag;
use lf_logs::{LogRecords, places_of_bank};
use lf_rules::{NoMemory, Shape};
use std::alloc::Global;

/// What a bank uses at most of each level.
#[derive(Clone, Copy, Default, PartialEq, Eq)]
pub struct BankUse {
    pub level1: LevelUse,
    pub level2: LevelUse,
}

/// What a trace uses at most.
#[derive(Drop, PartialEq, Eq)]
pub struct Usage {
    pub banks: Vec<BankUse>,
    /// For each port the highest tag of its requests.
    pub tags: Vec<Option<u8>>,
}

fn of_bank<L: LogRecords>(
    alloc: Global,
    shape: &Shape,
    logs: &L,
    bank: u8,
) -> Result<BankUse, NoMemory>
    requires in_range { IsShape shape.now }
    requires few { length (L.lists logs.now) ≤ 32 }
    requires short { All (λ log. length log ≤ 2 ^ 24) (L.lists logs.now) }
    requires whole { IsWhole (bank_numbers (L.lists logs.now) bank) }
    ensures { IfOk result (IsBankUse shape.now (L.lists logs.now) bank) }
{
    let Ok(places) = places_of_bank(alloc, logs, bank) else {
        return Err(NoMemory);
    };
    bank_use(alloc, shape, logs, places.as_slice())
}

/// What the records of a trace, whose banks' numbers are whole, use at most.
pub fn usage_of<L: LogRecords>(alloc: Global, shape: &Shape, logs: &L) -> Result<Usage, NoMemory>
    requires in_range { IsShape shape.now }
    requires logs { length (L.lists logs.now) ≡ shape.now.ports + shape.now.banks }
    requires short { All (λ log. length log ≤ 2 ^ 24) (L.lists logs.now) }
    requires whole { (bank : ℕ) → bank < shape.now.banks → IsWhole (bank_numbers (L.lists logs.now) bank) }
    ensures { IfOk result (IsUsage shape.now (L.lists logs.now)) }
{
    let mut banks = Vec::new(alloc);
    for bank in 0..shape.banks {
        let used = of_bank(alloc, shape, logs, bank as u8)?;
        banks.push(used)?;
    }
    let mut tags = Vec::new(alloc);
    for port in 0..shape.ports {
        tags.push(highest_tag(logs, port as u8))?;
    }
    Ok(Usage { banks, tags })
}
