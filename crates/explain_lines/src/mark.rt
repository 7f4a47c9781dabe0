//! What stands beside the line of a record.

ghost use Rattle.std.specs.Prelude.{◌≡◌, ◌+◌, ◌<◌, ◌^◌, IfOk, map, string_bytes};
ghost use Rattle.std.specs.Option.{option_map};
ghost use Rattle.lf_codec.specs.Lengths.{bytes_len};
ghost use Rattle.explain_lines.specs.Map.{time_of};
ghost use Rattle.explain_lines.specs.Marks.{told_by, besides, besides_of, offsets_of, times_of};

use crate::Times;
use explain_history::room;
use lf_codec::{Packed, record_len};
use lf_rules::NoMemory;
use std::alloc::Global;

/// What stands beside the line of a record.
#[derive(Clone, Copy, PartialEq, Eq)]
pub struct Mark<'a> {
    /// The offset of the record's first byte in the trace.
    pub offset: u64,
    /// The record's time, where a map tells it.
    pub time: Option<&'a str>,
}

/// What stands beside each record of a trace, by its place.
#[derive(Drop, PartialEq, Eq)]
pub struct Marks {
    /// The offset of each record's first byte in the trace.
    pub offsets: Vec<u64>,
    /// The time of each record, where a map tells it. Records behind these have no time, so that without a map there
    /// is nothing to keep.
    pub times: Vec<Option<String>>,
}

impl Marks {
    ghost use Rattle.std.specs.Prelude.{◌≡◌, None, slice_get, unwrap_or};
    ghost use Rattle.std.specs.Option.{option_map};
    ghost use Rattle.explain_lines.specs.Marks.{beside, besides, texts};

    /// The time of the record at the place, where it has one.
    fn time(&self, place: usize) -> Option<&str>
        ensures { option_map (λ time. time.now) result ≡ unwrap_or (slice_get (texts self.now) place) None }
    {
        match self.times.get(place) {
            Some(Some(time)) => Some(time.as_str()),
            _ => None,
        }
    }

    /// What stands beside the record at the place, where there is one.
    pub fn mark(&self, place: usize) -> Option<Mark<'_>>
        ensures { option_map beside result ≡ slice_get (besides self.now) place }
    {
        let offset = *self.offsets.get(place)?;
        Some(Mark {
            offset,
            time: self.time(place),
        })
    }
}

/// The time of the record at a place of a log, where the map tells it.
fn time_of(alloc: Global, times: &Times, log: u8, place: u64) -> Result<Option<String>, NoMemory>
    ensures { IfOk result (λ time. option_map string_bytes time ≡ time_of times.now log place) }
{
    match times.of(log, place) {
        Some(time) => Ok(Some(String::from_str(alloc, time)?)),
        None => Ok(None),
    }
}

/// The time of each record of a trace, where the map tells it. No record is built for that.
fn times_of(alloc: Global, records: &Packed, times: &Times) -> Result<Vec<Option<String>>, NoMemory>
    ensures { IfOk result (λ found. map (option_map string_bytes) found.items
        ≡ times_of (time_of times.now) records.now.records) }
{
    let mut counts = [0u64; 256];
    let mut found = Vec::with_capacity(alloc, records.len())?;
    for place in 0..records.len() {
        let log = records.log(place);
        let count = counts[usize::from(log)];
        found.push(time_of(alloc, times, log, count)?)?;
        counts[usize::from(log)] = count.saturating_add(1);
    }
    Ok(found)
}

/// The offset of each record's first byte in a trace, of which the first is `start`. No trace has 2^64 bytes.
fn offsets_of(alloc: Global, records: &Packed, start: u64) -> Result<Vec<u64>, NoMemory>
    ensures { start + bytes_len records.now.records < 2 ^ 64
        → IfOk result (λ offsets. offsets.items ≡ offsets_of start records.now.records) }
{
    let mut offset = start;
    let mut offsets = Vec::with_capacity(alloc, records.len())?;
    let mut room = room();
    for place in 0..records.len() {
        offsets.push(offset)?;
        offset = offset.saturating_add(record_len(records.lend(place, &mut room)));
    }
    Ok(offsets)
}

/// What stands beside each record of a trace, of which the first begins at `start`. No trace has 2^64 bytes.
pub fn marks_of(
    alloc: Global,
    records: &Packed,
    start: u64,
    times: Option<&Times>,
) -> Result<Marks, NoMemory>
    ensures { start + bytes_len records.now.records < 2 ^ 64
        → IfOk result (λ marks. besides marks ≡ besides_of (told_by times.entry) start records.now.records) }
{
    let offsets = offsets_of(alloc, records, start)?;
    let times = match times {
        Some(times) => times_of(alloc, records, times)?,
        None => Vec::new(alloc),
    };
    Ok(Marks { offsets, times })
}
