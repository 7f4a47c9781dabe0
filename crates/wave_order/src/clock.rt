//! The axis of a wave that has the times of its records.

ghost use Rattle.std.specs.Prelude.{◌≡◌, IfOk};
ghost use Rattle.std.specs.Option.{option_map};
ghost use Rattle.explain_lines.specs.Map.{time_of};
ghost use Rattle.explain_lines.specs.Stamp.{word_of, number_of};
ghost use Rattle.wave_order.specs.Times.{number_told, rank_of, at_number, axis, at_of};

use crate::counts::Counts;
use explain_lines::Times;
use std::alloc::{AllocError, Global};

/// So many picoseconds are a unit of the map.
const UNIT: u64 = 1000;

/// A record is at least so many picoseconds behind the one before, whose word is taken away between them.
const STEP: u64 = 2;

/// So many records are a page.
const PAGE: u64 = 32;

/// GTKWave's zoom where a nanosecond has a record.
pub const ZOOM: u32 = 10;

/// The times of the records of a wave, and where these are on its axis.
#[derive(Drop)]
pub struct Clock {
    times: Times,
    /// Where the record at each place is, in picoseconds.
    at: Vec<u64>,
    /// So long is a page.
    page: u64,
    /// GTKWave's zoom, in which a page is about a screen.
    zoom: u32,
}

/// The word in front of a time.
fn first_word(time: &str) -> &str
    ensures { result.now ≡ word_of time.now }
{
    match time.split_once(' ') {
        Some((word, _)) => word,
        None => time,
    }
}

/// The number of decimal digits, below 2^64. A sign is no digit.
fn number_of(digits: &str) -> Option<u64>
    ensures { result ≡ number_of digits.now }
{
    if digits.starts_with('+') {
        return None;
    }
    digits.parse().ok()
}

/// The rank of the record at a place of a log: the number in front of its time. One without a number comes at once, and
/// without times all records are alike.
pub(crate) fn rank_of(times: &Option<Times>, log: u8, place: u64) -> u64
    ensures { result ≡ rank_of times.now log place }
{
    let Some(times) = times else {
        return 0;
    };
    match number_told(times.of(log, place)) {
        Some(number) => number,
        None => 0,
    }
}

/// The number in front of a time.
fn number_told(time: Option<&str>) -> Option<u64>
    ensures { result ≡ number_told (option_map (λ t. t.now) time.entry) }
{
    number_of(first_word(time?))
}

/// Where a record of this time is, from here on.
fn at_number(least: u64, time: Option<u64>) -> u64
    ensures { result ≡ at_number least time }
{
    match time {
        Some(number) => number.saturating_mul(UNIT).max(least),
        None => least,
    }
}

/// How far apart two records are, on the average, but a unit at least.
fn spacing(at: &[u64]) -> u64 {
    let length = match (at.first(), at.last()) {
        (Some(first), Some(last)) => last.saturating_sub(*first),
        _ => 0,
    };
    length
        .checked_div(at.len() as u64)
        .unwrap_or(UNIT)
        .max(UNIT)
}

impl Clock {
    /// The clock of a wave whose records come from these logs, one after another.
    pub fn new(alloc: Global, times: Times, logs: &[u8]) -> Result<Clock, AllocError>
        ensures times { IfOk result (λ clock. clock.times ≡ times) }
        ensures at { IfOk result (λ clock. clock.at.items ≡ axis times logs.now) }
    {
        let mut counts = Counts::new();
        let mut at = Vec::new(alloc);
        let mut least = STEP;
        for log in logs {
            let time = times.of(*log, counts.of(*log));
            let place = at_number(least, number_told(time));
            at.push(place)?;
            least = place.saturating_add(STEP);
            counts.take(*log);
        }
        let spacing = spacing(at.as_slice());
        let scale = (spacing / UNIT).max(1).ilog2();
        Ok(Clock {
            times,
            at,
            page: spacing.saturating_mul(PAGE),
            zoom: ZOOM.saturating_add(scale),
        })
    }

    /// The time of the record at a place of a log, where the map tells it.
    pub fn of(&self, log: u8, place: u64) -> Option<&str>
        ensures { option_map (λ time. time.now) result ≡ time_of self.now.times log place }
    {
        self.times.of(log, place)
    }

    /// Where the record at a place of the wave is.
    pub fn at(&self, place: u64) -> u64
        ensures { result ≡ at_of self.now place }
    {
        match self.at.get(place as usize) {
            Some(at) => *at,
            None => 0,
        }
    }

    /// How long a page is.
    pub fn page(&self) -> u64
        ensures { result ≡ self.now.page }
    {
        self.page
    }

    /// GTKWave's zoom.
    pub fn zoom(&self) -> u32
        ensures { result ≡ self.now.zoom }
    {
        self.zoom
    }
}
