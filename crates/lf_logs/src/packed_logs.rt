//! Records in the form of their bytes, by their logs.

ghost use Rattle.std.specs.Prelude.{◌≡◌, ℕ, ◌+◌, ◌<◌, ◌≤◌, ◌^◌, List, [], length, IfOk};
ghost use Rattle.std.specs.List.{All};
ghost use Rattle.lf_rules.specs.declared.event.Record.{Record};
ghost use Rattle.lf_logs.specs.Lists.{logs_of};
ghost use Rattle.lf_logs.specs.PackedLogs.{lists_at, AreSpotsOf, IsSpotOf};

use crate::log_records::LogRecords;
use crate::order::Place;
use lf_codec::Packed;
use lf_rules::NoMemory;
use std::alloc::Global;
use std::marker::Model;
use trace_views::RecordView;

/// Where a record stands among all records, with the bank that it names and its number: so a walk over all records of
/// a bank reads no other part of them.
#[derive(Clone, Copy)]
struct Spot {
    at: u32,
    number: u32,
    bank: u8,
}

/// The records of a trace by their logs, in the form of their bytes: each takes about the room of these, and twelve
/// bytes for its spot.
#[derive(Drop)]
pub struct PackedLogs {
    records: Packed,
    /// For each log the spots of its records.
    spots: Vec<Vec<Spot>>,
}

impl Model for PackedLogs {
    ghost use Rattle.std.specs.Prelude.{List};
    ghost use Rattle.lf_rules.specs.declared.event.Record.{Record};
    ghost use Rattle.lf_logs.specs.PackedLogs.{lists_at, AreSpotsOf};

    ghost Value = { List (List Record) };

    ghost view = { λ p. lists_at p.records.records p.spots };

    ghost invariant = { λ p. AreSpotsOf p.records.records p.spots };
}

/// So many logs with no record.
fn no_spots(alloc: Global, count: u32) -> Result<Vec<Vec<Spot>>, NoMemory>
    ensures lists { IfOk result (λ logs. (rs : List Record) → lists_at rs logs ≡ logs_of count []) }
    ensures spots { IfOk result (λ logs. (rs : List Record) → AreSpotsOf rs logs) }
{
    let mut logs = Vec::new(alloc);
    for _ in 0..count {
        logs.push(Vec::new(alloc))?;
    }
    Ok(logs)
}

/// The spot of the record at this place.
fn spot_of(records: &Packed, at: usize) -> Spot
    requires within { at < length records.now.records }
    requires few { length records.now.records ≤ 2 ^ 29 }
    ensures spot { IsSpotOf records.now.records result }
    ensures at { result.at ≡ at }
{
    Spot {
        at: at as u32,
        number: records.number(at),
        bank: records.bank(at),
    }
}

/// For each log the spots of its records.
fn spots_by_log(alloc: Global, count: u32, records: &Packed) -> Result<Vec<Vec<Spot>>, NoMemory>
    requires logs { All (λ r. r.log < count) records.now.records }
    requires few { length records.now.records ≤ 2 ^ 29 }
    ensures lists { IfOk result (λ logs. lists_at records.now.records logs ≡ logs_of count records.now.records) }
    ensures spots { IfOk result (λ logs. AreSpotsOf records.now.records logs) }
{
    let mut logs = no_spots(alloc, count)?;
    for at in 0..records.len() {
        let log = usize::from(records.log(at));
        logs[log].push(spot_of(records, at))?;
    }
    Ok(logs)
}

impl PackedLogs {
    /// The records by their logs: those of the ports, and behind them those of the banks. Each log keeps its records
    /// in the order in which they are handed in. None is built for this.
    pub fn split(
        alloc: Global,
        ports: u32,
        banks: u32,
        records: Packed,
    ) -> Result<PackedLogs, NoMemory>
        requires ports { ports ≤ 16 }
        requires banks { banks ≤ 16 }
        requires logs { All (λ r. r.log < ports + banks) records.records }
        requires few { length records.records ≤ 2 ^ 29 }
        ensures { IfOk result (λ logs. logs ≡ logs_of (ports + banks) records.records) }
    {
        let spots = spots_by_log(alloc, ports + banks, &records)?;
        Ok(PackedLogs { records, spots })
    }
}

impl LogRecords for PackedLogs {
    ghost lists = { λ logs. logs };

    fn log_count(&self) -> usize {
        self.spots.len()
    }

    fn log_len(&self, log: usize) -> usize {
        self.spots[log].len()
    }

    fn entry(&self, place: Place) -> (u8, u32) {
        let Spot { bank, number, .. } = self.spots[usize::from(place.log)][place.at as usize];
        (bank, number)
    }

    fn lend<'a>(&'a self, place: Place, room: &mut RecordView<'a>) {
        let spot = self.spots[usize::from(place.log)][place.at as usize];
        self.records.lend_view(spot.at as usize, room);
    }
}
