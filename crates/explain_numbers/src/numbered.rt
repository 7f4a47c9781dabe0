//! The records that have a number of a bank, and the numbers next to one.

ghost use Rattle.std.specs.Prelude.{◌≡◌, ◌<◌, [], length, slice_index_or, IfOk, MatchOption};
ghost use Rattle.lf_rules.specs.declared.event.Record.{Record};
ghost use Rattle.explain_history.specs.Places.{is_numbered};
ghost use Rattle.explain_numbers.specs.Numbered.{places_of_number, is_below, is_above, numbers_below, numbers_above};
ghost use Rattle.explain_numbers.specs.Numbered.{IsGreatest, IsLeast, AreGreatestBelow, AreLeastAbove};

use lf_codec::Packed;
use lf_rules::NoMemory;
use std::alloc::Global;

/// Whether the record at the place has this number of the bank.
fn is_numbered(records: &Packed, place: usize, bank: u8, number: u32) -> bool
    requires { place < length records.now.records }
    ensures { (d : Record) → result ≡ is_numbered bank number (slice_index_or records.now.records place d) }
{
    records.bank(place) == bank && records.number(place) == number
}

/// Whether it has a number of the bank that is below this one.
fn is_below(records: &Packed, place: usize, bank: u8, number: u32) -> bool
    requires { place < length records.now.records }
    ensures { (d : Record) → result ≡ is_below bank number (slice_index_or records.now.records place d) }
{
    records.bank(place) == bank && records.number(place) < number
}

/// Whether it has a number of the bank that is above this one.
fn is_above(records: &Packed, place: usize, bank: u8, number: u32) -> bool
    requires { place < length records.now.records }
    ensures { (d : Record) → result ≡ is_above bank number (slice_index_or records.now.records place d) }
{
    records.bank(place) == bank && number < records.number(place)
}

/// The places of all records that have this number of the bank.
pub(crate) fn places_of_number(
    alloc: Global,
    records: &Packed,
    bank: u8,
    number: u32,
) -> Result<Vec<usize>, NoMemory>
    ensures { IfOk result (λ places. places.items ≡ places_of_number bank number records.now.records) }
{
    let mut places = Vec::new(alloc);
    for place in 0..records.len() {
        if is_numbered(records, place, bank, number) {
            places.push(place)?;
        }
    }
    Ok(places)
}

/// The bank's numbers that are below this one.
fn numbers_below(
    alloc: Global,
    records: &Packed,
    bank: u8,
    number: u32,
) -> Result<Vec<u32>, NoMemory>
    ensures { IfOk result (λ numbers. numbers.items ≡ numbers_below bank number records.now.records) }
{
    let mut numbers = Vec::new(alloc);
    for place in 0..records.len() {
        if is_below(records, place, bank, number) {
            numbers.push(records.number(place))?;
        }
    }
    Ok(numbers)
}

/// The bank's numbers that are above this one.
fn numbers_above(
    alloc: Global,
    records: &Packed,
    bank: u8,
    number: u32,
) -> Result<Vec<u32>, NoMemory>
    ensures { IfOk result (λ numbers. numbers.items ≡ numbers_above bank number records.now.records) }
{
    let mut numbers = Vec::new(alloc);
    for place in 0..records.len() {
        if is_above(records, place, bank, number) {
            numbers.push(records.number(place))?;
        }
    }
    Ok(numbers)
}

fn greatest(numbers: &[u32]) -> Option<u32>
    ensures { MatchOption result (numbers.now ≡ []) (λ greatest. IsGreatest greatest numbers.now) }
{
    numbers.iter().copied().max()
}

pub(crate) fn least(numbers: &[u32]) -> Option<u32>
    ensures { MatchOption result (numbers.now ≡ []) (λ least. IsLeast least numbers.now) }
{
    numbers.iter().copied().min()
}

/// The places of the bank's records with the greatest number below this one.
pub(crate) fn nearest_below(
    alloc: Global,
    records: &Packed,
    bank: u8,
    number: u32,
) -> Result<Vec<usize>, NoMemory>
    ensures { IfOk result (λ places. AreGreatestBelow records.now.records bank number places.items) }
{
    let numbers = numbers_below(alloc, records, bank, number)?;
    match greatest(numbers.as_slice()) {
        Some(greatest) => places_of_number(alloc, records, bank, greatest),
        None => Ok(Vec::new(alloc)),
    }
}

/// The places of the bank's records with the least number above this one.
pub(crate) fn nearest_above(
    alloc: Global,
    records: &Packed,
    bank: u8,
    number: u32,
) -> Result<Vec<usize>, NoMemory>
    ensures { IfOk result (λ places. AreLeastAbove records.now.records bank number places.items) }
{
    let numbers = numbers_above(alloc, records, bank, number)?;
    match least(numbers.as_slice()) {
        Some(least) => places_of_number(alloc, records, bank, least),
        None => Ok(Vec::new(alloc)),
    }
}
