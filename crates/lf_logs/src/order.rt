//! The order of a bank's records, by their numbers.

ghost use Rattle.std.specs.Prelude.{◌≡◌, ◌<◌, ◌≤◌, ◌^◌, length, List, map, ◌++◌, [], IfOk, IfErr, OnOk, IsSome, Some};
ghost use Rattle.std.specs.Prelude.{slice_index_or};
ghost use Rattle.std.specs.List.{All};
ghost use Rattle.lf_rules.specs.declared.event.Record.{Record};
ghost use Rattle.lf_rules.specs.Run.{of_bank};
ghost use Rattle.lf_rules.specs.Numbers.{all_records, bank_numbers, IsWhole};
ghost use Rattle.lf_rules.specs.Lists.{lists_of};
ghost use Rattle.lf_logs.specs.Places.{record_at, ArePlacesOfBank, IsNumberFault};
ghost use Rattle.lf_logs.specs.Tallies.{AreTallies, AreOnceBelow, IsFirstFault};

use crate::log_records::LogRecords;
use lf_rules::{Logs, NoMemory, Record};
use std::alloc::Global;

/// A record's place: a log, and the place in it, from 0.
#[derive(Clone, Copy, Debug, PartialEq, Eq)]
pub struct Place {
    pub log: u8,
    pub at: u32,
}

/// Why the numbers of a bank give no order.
#[derive(Clone, Copy, Debug, PartialEq, Eq)]
pub enum NumberFault {
    /// No record carries this number, and one carries a greater one.
    Missing(u32),
    /// More than one record carries this number.
    Double(u32),
    /// A growth was refused.
    NoMemory,
}

impl From<NoMemory> for NumberFault {
    ghost use Rattle.lf_logs.specs.declared.order.NumberFault.{NumberFault};

    ghost from_gives = { λ _ fault. fault ≡ NumberFault.NoMemory };

    fn from(_: NoMemory) -> NumberFault {
        NumberFault::NoMemory
    }
}

/// How many records of the bank carry a number, and the place of the last that does.
#[derive(Clone, Copy)]
struct Tally {
    times: u32,
    last: Place,
}

/// How many records of the log name the bank.
fn count_of_bank<L: LogRecords>(logs: &L, bank: u8, log: u8) -> usize
    requires log { log < length (L.lists logs.now) }
    requires short { length (slice_index_or (L.lists logs.now) log []) ≤ 2 ^ 24 }
    ensures { result ≡ length (of_bank bank (slice_index_or (L.lists logs.now) log [])) }
{
    let mut count = 0;
    for at in 0..logs.log_len(usize::from(log)) {
        let (named, _) = logs.entry(Place { log, at: at as u32 });
        if named == bank {
            count += 1;
        }
    }
    count
}

/// How many records name the bank.
fn bank_len<L: LogRecords>(logs: &L, bank: u8) -> usize
    requires few { length (L.lists logs.now) ≤ 32 }
    requires short { All (λ log. length log ≤ 2 ^ 24) (L.lists logs.now) }
    ensures { result ≡ length (of_bank bank (all_records (L.lists logs.now))) }
{
    let mut len = 0;
    for log in 0..logs.log_count() {
        len += count_of_bank(logs, bank, log as u8);
    }
    len
}

/// Counts the bank's records of one log. A number without a tally is left out.
fn count_log<L: LogRecords>(tallies: &mut [Tally], logs: &L, bank: u8, log: u8)
    requires low { All (λ tally. tally.times ≤ 2 ^ 29) tallies.old }
    requires log { log < length (L.lists logs.now) }
    requires short { length (slice_index_or (L.lists logs.now) log []) ≤ 2 ^ 24 }
    ensures { (seen : List Record) → AreTallies (L.lists logs.now) bank seen tallies.old
        → AreTallies (L.lists logs.now) bank (seen ++ slice_index_or (L.lists logs.now) log []) tallies.new }
{
    for at in 0..logs.log_len(usize::from(log)) {
        let place = Place { log, at: at as u32 };
        let (named, number) = logs.entry(place);
        let number = number as usize;
        if named == bank && number < tallies.len() {
            let tally = &mut tallies[number];
            tally.times += 1;
            tally.last = place;
        }
    }
}

/// A tally for each number below the count of the bank's records.
fn tallies_of<L: LogRecords>(alloc: Global, logs: &L, bank: u8) -> Result<Vec<Tally>, NoMemory>
    requires few { length (L.lists logs.now) ≤ 32 }
    requires short { All (λ log. length log ≤ 2 ^ 24) (L.lists logs.now) }
    ensures len { IfOk result (λ tallies. length tallies.items
        ≡ length (of_bank bank (all_records (L.lists logs.now)))) }
    ensures counted { IfOk result (λ tallies. AreTallies (L.lists logs.now) bank (all_records (L.lists logs.now))
        tallies.items) }
{
    let nowhere = Place { log: 0, at: 0 };
    let none = Tally {
        times: 0,
        last: nowhere,
    };
    let mut tallies = vec![in alloc; none; bank_len(logs, bank)]?;
    for log in 0..logs.log_count() {
        count_log(&mut tallies, logs, bank, log as u8);
    }
    Ok(tallies)
}

/// The first number that does not occur exactly once.
fn judge(tallies: &[Tally]) -> Result<(), NumberFault>
    requires { length tallies.now ≤ 2 ^ 29 }
    ensures fine { OnOk result (AreOnceBelow (length tallies.now) tallies.now) }
    ensures fault { IfErr result (IsFirstFault tallies.now) }
{
    for (k, tally) in tallies.iter().enumerate() {
        match tally.times {
            0 => return Err(NumberFault::Missing(k as u32)),
            1 => {}
            _ => return Err(NumberFault::Double(k as u32)),
        }
    }
    Ok(())
}

fn last_places(alloc: Global, tallies: &[Tally]) -> Result<Vec<Place>, NoMemory>
    ensures { IfOk result (λ places. places.items ≡ map (λ tally. tally.last) tallies.now) }
{
    let mut places = Vec::with_capacity(alloc, tallies.len())?;
    for tally in tallies {
        places.push_reserved(tally.last);
    }
    Ok(places)
}

/// The places of the records that name the bank, in the order of their numbers, where these are
/// 0, 1, 2, .. and each occurs once. Otherwise the least number that is missing below a greater one
/// or that occurs more than once.
pub fn places_of_bank<L: LogRecords>(
    alloc: Global,
    logs: &L,
    bank: u8,
) -> Result<Vec<Place>, NumberFault>
    requires few { length (L.lists logs.now) ≤ 32 }
    requires short { All (λ log. length log ≤ 2 ^ 24) (L.lists logs.now) }
    ensures order { IfOk result (λ places. ArePlacesOfBank (L.lists logs.now) bank places.items) }
    ensures whole { OnOk result (IsWhole (bank_numbers (L.lists logs.now) bank)) }
    ensures fault { IfErr result (IsNumberFault (bank_numbers (L.lists logs.now) bank)) }

    // Whole numbers have an order, so that nothing but out of memory is left to refuse them.
    ensures succeeds { IsWhole (bank_numbers (L.lists logs.now) bank)
        → IfErr result (λ fault. fault ≡ NumberFault.NoMemory) }
{
    let tallies = tallies_of(alloc, logs, bank)?;
    judge(&tallies)?;
    Ok(last_places(alloc, &tallies)?)
}

/// The same of logs that hold their records.
pub fn bank_order(alloc: Global, logs: &Logs, bank: u8) -> Result<Vec<Place>, NumberFault>
    requires few { length logs.now.items ≤ 32 }
    requires short { All (λ log. length log.items ≤ 2 ^ 24) logs.now.items }
    ensures order { IfOk result (λ places. ArePlacesOfBank (lists_of logs.now) bank places.items) }
    ensures whole { OnOk result (IsWhole (bank_numbers (lists_of logs.now) bank)) }
    ensures fault { IfErr result (IsNumberFault (bank_numbers (lists_of logs.now) bank)) }
    ensures succeeds { IsWhole (bank_numbers (lists_of logs.now) bank)
        → IfErr result (λ fault. fault ≡ NumberFault.NoMemory) }
{
    places_of_bank(alloc, logs, bank)
}

/// The record at the place.
pub fn record_at(logs: &Logs, place: Place) -> &Record
    requires { IsSome (record_at (lists_of logs.now) place) }
    ensures { record_at (lists_of logs.now) place ≡ Some result.now }
{
    &logs[usize::from(place.log)][place.at as usize]
}
