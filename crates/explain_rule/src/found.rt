//! What is found of the record that breaks a rule, and of those before it.

ghost use Rattle.std.specs.Prelude.{◌≡◌, ◌+◌, ◌<◌, Some, None, map, take, IfOk};
ghost use Rattle.std.specs.List.{AllByRecursion};
ghost use Rattle.lf_rules.specs.Address.{flat_memory};
ghost use Rattle.lf_rules.specs.Fits.{Fits};
ghost use Rattle.lf_rules.specs.InRange.{IsShape};
ghost use Rattle.bank_state.specs.Bytes.{bank_part};
ghost use Rattle.explain_history.specs.BankOrder.{records_at, in_order};
ghost use Rattle.explain_history.specs.History.{IsHistoryInLog, IsHistoryInBank};
ghost use Rattle.explain_history.specs.Places.{places_of_log};
ghost use Rattle.explain_replay.specs.Broken.{IsFirstBroken};
ghost use Rattle.explain_rule.specs.Explanation.{HasBank};
ghost use Rattle.explain_rule.specs.Found.{IsFound};

use crate::explanation::Breach;
use explain_history::{History, history_in_log, history_in_order, places_in_order};
use explain_replay::{Broken, first_broken};
use lf_codec::Packed;
use lf_rules::{Memory, NoMemory, Shape};
use std::alloc::Global;

/// A record that breaks a rule, and what came before it.
#[derive(Drop)]
pub(crate) struct Found {
    pub history: History,
    pub broken: Option<Broken>,
    /// The places of all records before it, of the port's log or of the bank.
    pub before: Vec<Option<usize>>,
}

/// The places of the first records of a port's log, so many.
fn places_in_log(
    alloc: Global,
    records: &Packed,
    port: u8,
    count: usize,
) -> Result<Vec<Option<usize>>, NoMemory>
    ensures { IfOk result (λ places. places.items ≡ map Some (take count (places_of_log port records.now.records))) }
{
    let history = history_in_log(alloc, records, port, count, count)?;
    let mut places = Vec::new(alloc);
    for place in history.before.iter() {
        places.push(Some(*place))?;
    }
    Ok(places)
}

/// What is found of the record at the place `at` of a port's log.
fn found_in_log(
    alloc: Global,
    records: &Packed,
    port: u8,
    at: usize,
    most: usize,
) -> Result<Found, NoMemory>
    ensures history { IfOk result (λ found. IsHistoryInLog records.now.records port at most found.history) }
    ensures broken { IfOk result (λ found. found.broken ≡ None) }
    ensures before { IfOk result (λ found.
        found.before.items ≡ map Some (take at (places_of_log port records.now.records))) }
{
    let history = history_in_log(alloc, records, port, at, most)?;
    let before = places_in_log(alloc, records, port, at)?;
    Ok(Found {
        history,
        broken: None,
        before,
    })
}

/// What is found of the record of a bank that has this number. For that the bank's records up to it are judged once
/// more.
fn found_in_bank(
    alloc: Global,
    shape: &Shape,
    memory: &Memory,
    records: &Packed,
    bank: u8,
    number: u32,
    most: usize,
) -> Result<Found, NoMemory>
    requires in_range { IsShape shape.now }
    requires bank { bank < shape.now.banks }
    requires fit { AllByRecursion (Fits shape.now) records.now.records }
    ensures history { IfOk result (λ found.
        IsHistoryInBank shape.now records.now.records bank number most found.history) }
    ensures broken { IfOk result (λ found. IsFirstBroken shape.now
        (bank_part shape.now bank (flat_memory memory.now.items)) (in_order bank records.now.records (number + 1))
        found.broken) }
    ensures before { IfOk result (λ found.
        records_at records.now.records found.before.items ≡ in_order bank records.now.records number) }
{
    let count = number as usize;
    let mut places = places_in_order(alloc, records, bank, count + 1)?;
    let history = history_in_order(alloc, shape, records, &places, number, most)?;
    let broken = first_broken(alloc, shape, memory, u32::from(bank), records, &places)?;
    places.truncate(count);
    Ok(Found {
        history,
        broken,
        before: places,
    })
}

/// What is found of the record that breaks the rule.
pub(crate) fn find(
    alloc: Global,
    shape: &Shape,
    memory: &Memory,
    records: &Packed,
    breach: &Breach,
    most: usize,
) -> Result<Found, NoMemory>
    requires in_range { IsShape shape.now }
    requires bank { HasBank shape.now breach.now }
    requires fit { AllByRecursion (Fits shape.now) records.now.records }
    ensures { IfOk result (IsFound shape.now memory.now.items records.now.records breach.now most) }
{
    match breach {
        Breach::Port { port, at, .. } => found_in_log(alloc, records, *port, *at as usize, most),
        Breach::Bank { bank, number, .. } => {
            found_in_bank(alloc, shape, memory, records, *bank, *number, most)
        }
    }
}
