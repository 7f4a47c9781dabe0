//! The places of records in a trace.

ghost use Rattle.std.specs.Prelude.{◌≡◌, Some, None, IfOk, MatchOption};
ghost use Rattle.explain_history.specs.Places.{places_of_log, places_of_numbers};
ghost use Rattle.explain_history.specs.Touching.{record_at};

use lf_codec::Packed;
use lf_rules::{NoMemory, Record};
use std::alloc::Global;

/// The record at a place, where there is one. It may be built in `room`.
pub fn record_at<'a>(
    records: &'a Packed,
    place: Option<usize>,
    room: &'a mut Record,
) -> Option<&'a Record>
    ensures { MatchOption result (record_at records.now.records place ≡ None)
        (λ item. record_at records.now.records place ≡ Some item.now) }
{
    let place = place?;
    if place < records.len() {
        Some(records.lend(place, room))
    } else {
        None
    }
}

/// The places of the records of a log.
pub(crate) fn places_of_log(
    alloc: Global,
    records: &Packed,
    log: u8,
) -> Result<Vec<usize>, NoMemory>
    ensures { IfOk result (λ places. places.items ≡ places_of_log log records.now.records) }
{
    let mut places = Vec::new(alloc);
    for place in 0..records.len() {
        if records.log(place) == log {
            places.push(place)?;
        }
    }
    Ok(places)
}

/// The places of the first records that have the numbers 0 to `count - 1` of the bank.
pub(crate) fn places_of_numbers(
    alloc: Global,
    records: &Packed,
    bank: u8,
    count: usize,
) -> Result<Vec<Option<usize>>, NoMemory>
    ensures { IfOk result (λ places. places.items ≡ places_of_numbers bank records.now.records count) }
{
    let mut places = vec![in alloc; None; count]?;
    let mut place = records.len();
    while place > 0 {
        place -= 1;
        let number = records.number(place) as usize;
        if records.bank(place) == bank && number < count {
            places[number] = Some(place);
        }
    }
    Ok(places)
}
