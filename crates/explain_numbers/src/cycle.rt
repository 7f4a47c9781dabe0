//! Records that wait for one another.

ghost use Rattle.std.specs.Prelude.{◌≡◌, ◌<◌, ◌≤◌, map, drop, length, IfOk, slice_get, slice_index_or};
ghost use Rattle.lf_rules.specs.declared.event.Record.{Record};
ghost use Rattle.explain_history.specs.Places.{places_from};
ghost use Rattle.explain_numbers.specs.Cycle.{place_of_knot, stands_in, numbers_in, has_number_in};
ghost use Rattle.explain_numbers.specs.Cycle.{IsLeastFrom, IsWaitedFor, AreWaits};

use crate::numbered::least;
use explain_history::history_in_log;
use lf_codec::Packed;
use lf_rules::{Knot, NoMemory};
use std::alloc::Global;

/// A record that waits, and the one that it waits for, by their places in the trace.
#[derive(Clone, Copy, PartialEq, Eq)]
pub struct Wait {
    /// The record that waits, where there is one.
    pub waiting: Option<usize>,
    /// The record of its bank with a smaller number, which it waits for, where there is one.
    pub earlier: Option<usize>,
}

/// The place of the record of each knot.
fn places_of_knots(
    alloc: Global,
    records: &Packed,
    ring: &[Knot],
) -> Result<Vec<Option<usize>>, NoMemory>
    ensures { IfOk result (λ places. places.items ≡ map (place_of_knot records.now.records) ring.now) }
{
    let mut places = Vec::new(alloc);
    for knot in ring {
        let history = history_in_log(alloc, records, knot.log, knot.at as usize, 0)?;
        places.push(history.place)?;
    }
    Ok(places)
}

/// Whether the record at the place stands in the log and names the bank.
fn stands_in(records: &Packed, place: usize, log: u8, bank: u8) -> bool
    requires { place < length records.now.records }
    ensures { (d : Record) → result ≡ stands_in log bank (slice_index_or records.now.records place d) }
{
    records.log(place) == log && records.bank(place) == bank
}

/// The numbers that the records of a log name the bank with, from this place on.
fn numbers_from(
    alloc: Global,
    records: &Packed,
    log: u8,
    bank: u8,
    from: usize,
) -> Result<Vec<u32>, NoMemory>
    requires { from ≤ length records.now.records }
    ensures { IfOk result (λ numbers. numbers.items ≡ numbers_in log bank (drop from records.now.records)) }
{
    let mut numbers = Vec::new(alloc);
    for place in from..records.len() {
        if stands_in(records, place, log, bank) {
            numbers.push(records.number(place))?;
        }
    }
    Ok(numbers)
}

/// Whether the record at the place stands in the log and has this number of the bank.
fn has_number_in(records: &Packed, place: usize, log: u8, bank: u8, number: u32) -> bool
    requires { place < length records.now.records }
    ensures { (d : Record) → result ≡ has_number_in log bank number (slice_index_or records.now.records place d) }
{
    records.log(place) == log && records.bank(place) == bank && records.number(place) == number
}

/// The first record of the log from this place on that has the number of the bank.
fn first_from(records: &Packed, log: u8, bank: u8, number: u32, from: usize) -> Option<usize>
    ensures { result ≡ slice_get (places_from (has_number_in log bank number) from (drop from records.now.records)) 0 }
{
    for place in from..records.len() {
        if has_number_in(records, place, log, bank, number) {
            return Some(place);
        }
    }
    None
}

/// Of the log's records from this place on that name the bank, the one with the least number.
fn least_from(
    alloc: Global,
    records: &Packed,
    log: u8,
    bank: u8,
    from: usize,
) -> Result<Option<usize>, NoMemory>
    requires { from ≤ length records.now.records }
    ensures { IfOk result (IsLeastFrom records.now.records log bank from) }
{
    let numbers = numbers_from(alloc, records, log, bank, from)?;
    match least(numbers.as_slice()) {
        Some(least) => Ok(first_from(records, log, bank, least, from)),
        None => Ok(None),
    }
}

/// The record that the one at `waiting` waits for: it stands behind the one at `next` in the same log.
fn waited_for(
    alloc: Global,
    records: &Packed,
    waiting: Option<usize>,
    next: Option<usize>,
) -> Result<Option<usize>, NoMemory>
    ensures { IfOk result (IsWaitedFor records.now.records waiting next) }
{
    let (Some(waiting), Some(next)) = (waiting, next) else {
        return Ok(None);
    };
    if waiting >= records.len() || next >= records.len() {
        return Ok(None);
    }
    let log = records.log(next);
    let bank = records.bank(waiting);
    least_from(alloc, records, log, bank, next + 1)
}

/// What the record of each knot waits for.
pub(crate) fn waits_of(
    alloc: Global,
    records: &Packed,
    ring: &[Knot],
) -> Result<Vec<Wait>, NoMemory>
    ensures { IfOk result (λ waits. AreWaits records.now.records ring.now waits.items) }
{
    let places = places_of_knots(alloc, records, ring)?;
    let count = places.len();
    let mut waits = Vec::new(alloc);
    for j in 0..count {
        let waiting = places[j];
        let earlier = waited_for(alloc, records, waiting, places[(j + 1) % count])?;
        waits.push(Wait { waiting, earlier })?;
    }
    Ok(waits)
}
