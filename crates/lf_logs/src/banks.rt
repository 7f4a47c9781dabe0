//! The records of each bank, moved into the order of their numbers.

ghost use Rattle.std.specs.Prelude.{◌≡◌, ℕ, ◌<◌, List, ◌++◌, length, IfOk, OnOk, IsPermutation};
ghost use Rattle.std.specs.List.{range_with_len};
ghost use Rattle.lf_rules.specs.declared.event.Record.{Record};
ghost use Rattle.lf_rules.specs.Numbers.{all_records, numbers_of, bank_numbers, IsWhole};
ghost use Rattle.lf_rules.specs.Lists.{lists_of};
ghost use Rattle.lf_logs.specs.Lists.{banks_of, AreNumbered};

use crate::logs::empty_logs;
use lf_rules::{Logs, NoMemory, Record};
use std::alloc::Global;

/// Moves each record of a log to the end of its bank's list. One that names none of these banks is
/// left out, as a fence is.
fn add_log(banks: &mut Vec<Vec<Record>>, log: Vec<Record>) -> Result<(), NoMemory>
    ensures { OnOk result ((count : ℕ) (seen : List Record) → lists_of banks.old ≡ banks_of count seen
        → lists_of banks.new ≡ banks_of count (seen ++ log.items)) }
{
    for item in log {
        let bank = usize::from(item.bank);
        if bank >= banks.len() {
            continue;
        }
        banks[bank].push(item)?;
    }
    Ok(())
}

/// The records of each bank, log after log.
fn split_by_bank(alloc: Global, count: u32, logs: Logs) -> Result<Vec<Vec<Record>>, NoMemory>
    ensures { IfOk result (λ banks. lists_of banks ≡ banks_of count (all_records (lists_of logs))) }
{
    let mut banks = empty_logs(alloc, count)?;
    for log in logs {
        add_log(&mut banks, log)?;
    }
    Ok(banks)
}

/// Moves each record to the place of its number. Each exchange brings one record there, and none away.
fn order_by_number(records: &mut [Record])
    requires { IsWhole (numbers_of records.old) }
    ensures numbers { numbers_of records.new ≡ range_with_len 0 (length records.new) }
    ensures same { IsPermutation records.old records.new }
{
    let mut at = 0;
    while at < records.len() {
        let number = records[at].number as usize;
        if number == at {
            at += 1;
        } else {
            records.swap(at, number);
        }
    }
}

/// For each bank its records of all logs, in the order of their numbers. Each record is moved. Those
/// that name none of these banks are left out, as fences are.
pub fn bank_records(alloc: Global, banks: u32, logs: Logs) -> Result<Vec<Vec<Record>>, NoMemory>
    requires whole { (bank : ℕ) → bank < banks → IsWhole (bank_numbers (lists_of logs) bank) }
    ensures { IfOk result (λ lists. AreNumbered (lists_of logs) banks (lists_of lists)) }
{
    let mut lists = split_by_bank(alloc, banks, logs)?;
    for bank in 0..lists.len() {
        order_by_number(&mut lists[bank]);
    }
    Ok(lists)
}
