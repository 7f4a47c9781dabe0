//! What came before a record.

ghost use Rattle.std.specs.Prelude.{◌≡◌, ℕ, ◌+◌, ◌<◌, [], IfOk, length, slice_index_or};
ghost use Rattle.explain_history.specs.Places.{places_of_numbers};
ghost use Rattle.explain_history.specs.Touching.{touches};
ghost use Rattle.explain_history.specs.History.{last, about, last_at_request, IsHistoryInLog, IsHistoryInBank};
ghost use Rattle.lf_rules.specs.declared.event.Record.{Record};
ghost use Rattle.lf_rules.specs.Run.{of_bank};

use crate::places::{places_of_log, places_of_numbers};
use crate::touching::{about, about_near, touched_at};
use lf_codec::Packed;
use lf_rules::{NoMemory, Shape};
use std::alloc::Global;

/// A record, and what came before it, by places.
#[derive(Drop, PartialEq, Eq)]
pub struct History {
    /// The place of the record, where there is one.
    pub place: Option<usize>,
    /// The places of the last records before it, in their order.
    pub before: Vec<usize>,
}

/// The last of the places, at most so many.
fn last(alloc: Global, places: &[usize], most: usize) -> Result<Vec<usize>, NoMemory>
    ensures { IfOk result (λ few. few.items ≡ last most places.now) }
{
    let mut few = Vec::new(alloc);
    few.extend_from_slice(&places[places.len().saturating_sub(most)..])?;
    Ok(few)
}

/// How many of the last records of a bank are looked at first.
const NEAR: usize = 16384;

/// The last of the places of the records that touch this block, at most so many. Mostly they are found among few
/// records, and so more and more of the last records are looked at.
fn last_about(
    alloc: Global,
    shape: &Shape,
    records: &Packed,
    places: &[Option<usize>],
    wanted: Option<u64>,
    most: usize,
) -> Result<Vec<usize>, NoMemory>
    requires block { 0 < shape.now.block }
    requires factor { 0 < shape.now.factor }
    ensures { IfOk result (λ few. few.items
        ≡ last most (about wanted (touches shape.now [] records.now.records places.now))) }
{
    let mut size = NEAR;
    while size < places.len() {
        let near = &places[places.len() - size..];
        let found = about_near(alloc, shape, records, near, wanted)?;
        if found.len() >= most {
            return last(alloc, &found, most);
        }
        size = size.saturating_mul(4);
    }
    let found = about(alloc, shape, records, places, wanted)?;
    last(alloc, &found, most)
}

/// The record at the place `at` of a log, and the last before it in that log, at most so many.
pub fn history_in_log(
    alloc: Global,
    records: &Packed,
    log: u8,
    at: usize,
    most: usize,
) -> Result<History, NoMemory>
    ensures { IfOk result (IsHistoryInLog records.now.records log at most) }
{
    let places = places_of_log(alloc, records, log)?;
    let earlier = &places[..at.min(places.len())];
    Ok(History {
        place: places.get(at).copied(),
        before: last(alloc, earlier, most)?,
    })
}

/// The record at the place of a bank's number, where these are the places of its numbers up to that one, and the
/// last of those before it that touch its second-level block, at most so many. Where the record names a request that
/// never came, its block is not known, and all before it count.
pub fn history_in_order(
    alloc: Global,
    shape: &Shape,
    records: &Packed,
    places: &[Option<usize>],
    number: u32,
    most: usize,
) -> Result<History, NoMemory>
    requires block { 0 < shape.now.block }
    requires factor { 0 < shape.now.factor }
    requires number { number < length places.now }
    ensures { (bank : ℕ) → places.now ≡ places_of_numbers bank records.now.records (number + 1)
        → IfOk result (IsHistoryInBank shape.now records.now.records bank number most) }
{
    let count = number as usize;
    let place = places[count];
    let earlier = &places[..count];
    let wanted = touched_at(shape, records, earlier, place);
    Ok(History {
        place,
        before: last_about(alloc, shape, records, earlier, wanted, most)?,
    })
}

/// How many records name the bank.
fn bank_len(records: &Packed, bank: u8) -> usize
    ensures { result ≡ length (of_bank bank records.now.records) }
{
    let mut len = 0;
    for place in 0..records.len() {
        if records.bank(place) == bank {
            len += 1;
        }
    }
    len
}

/// The last records of the bank of the request at this place that touch the second-level block that it asks for, in the
/// order of their numbers, at most so many. The request is one of them.
pub fn last_at_request(
    alloc: Global,
    shape: &Shape,
    records: &Packed,
    request: usize,
    most: usize,
) -> Result<Vec<usize>, NoMemory>
    requires block { 0 < shape.now.block }
    requires factor { 0 < shape.now.factor }
    requires request { request < length records.now.records }
    ensures { (d : Record) → IfOk result (λ places. places.items
        ≡ last_at_request shape.now records.now.records most (slice_index_or records.now.records request d)) }
{
    let wanted = touched_at(shape, records, &[], Some(request));
    let bank = records.bank(request);
    let places = places_of_numbers(alloc, records, bank, bank_len(records, bank))?;
    last_about(alloc, shape, records, &places, wanted, most)
}
