//! What the order of a trace depends on.

ghost use Rattle.std.specs.Prelude.{◌≡◌, map, IfOk};
ghost use Rattle.lf_rules.specs.Ring.{entry_of, skeletons_of};
ghost use Rattle.lf_rules.specs.Lists.{lists_of};

use lf_rules::{Logs, NoMemory, Record, Skeleton};
use std::alloc::Global;

fn skeleton(alloc: Global, log: &[Record]) -> Result<Skeleton, NoMemory>
    ensures { IfOk result (λ entries. entries.items ≡ map entry_of log.now) }
{
    let mut entries = Vec::with_capacity(alloc, log.len())?;
    for item in log {
        entries.push_reserved((item.bank, item.number));
    }
    Ok(entries)
}

/// Bank and number of each record, log by log, in the order of the logs.
pub fn skeletons(alloc: Global, logs: &Logs) -> Result<Vec<Skeleton>, NoMemory>
    ensures { IfOk result (λ all. lists_of all ≡ skeletons_of (lists_of logs.now)) }
{
    let mut all = Vec::new(alloc);
    for log in logs {
        all.push(skeleton(alloc, log)?)?;
    }
    Ok(all)
}
