//! Records by their logs.

ghost use Rattle.std.specs.Prelude.{◌≡◌, ◌+◌, ◌<◌, ◌≤◌, [], IfOk};
ghost use Rattle.std.specs.List.{All};
ghost use Rattle.lf_rules.specs.Numbers.{all_records};
ghost use Rattle.lf_rules.specs.Lists.{lists_of};
ghost use Rattle.lf_logs.specs.Lists.{logs_of};

use lf_rules::{Logs, NoMemory, Record};
use std::alloc::Global;

/// So many logs with no record.
pub(crate) fn empty_logs(alloc: Global, count: u32) -> Result<Logs, NoMemory>
    ensures { IfOk result (λ logs. lists_of logs ≡ logs_of count []) }
{
    let mut logs = Vec::new(alloc);
    for _ in 0..count {
        logs.push(Vec::new(alloc))?;
    }
    Ok(logs)
}

/// Moves each record into its log. The logs are those of the ports, and behind them one for each
/// bank; each keeps its records in the order in which they are handed in.
pub fn split(alloc: Global, ports: u32, banks: u32, records: Vec<Record>) -> Result<Logs, NoMemory>
    requires ports { ports ≤ 16 }
    requires banks { banks ≤ 16 }
    requires logs { All (λ r. r.log < ports + banks) records.items }
    ensures { IfOk result (λ logs. lists_of logs ≡ logs_of (ports + banks) records.items) }
{
    let mut logs = empty_logs(alloc, ports + banks)?;
    for item in records {
        let log = usize::from(item.log);
        logs[log].push(item)?;
    }
    Ok(logs)
}

/// The records of all logs, log after log, as `encode` takes them. Each record is moved.
pub fn records(alloc: Global, logs: Logs) -> Result<Vec<Record>, NoMemory>
    ensures { IfOk result (λ records. records.items ≡ all_records (lists_of logs)) }
{
    let mut records = Vec::new(alloc);
    for log in logs {
        let mut log = log;
        records.append(&mut log)?;
    }
    Ok(records)
}
