//! Why the numbers of a trace give no order.

ghost use Rattle.std.specs.Prelude.{IfOk};
ghost use Rattle.explain_numbers.specs.Reason.{TellsDouble, TellsMissing, TellsCycle};

use crate::cycle::{Wait, waits_of};
use crate::numbered::{nearest_above, nearest_below, places_of_number};
use lf_codec::Packed;
use lf_rules::{Knot, NoMemory};
use std::alloc::Global;

/// Why the numbers of a trace give no order, with records by their places in the trace.
#[derive(Drop, PartialEq, Eq)]
pub enum Reason {
    /// More than one record has this number of the bank: these all.
    Double {
        bank: u8,
        number: u32,
        places: Vec<usize>,
    },
    /// No record has this number of the bank: these have the greatest number below it, and those the least above.
    Missing {
        bank: u8,
        number: u32,
        below: Vec<usize>,
        above: Vec<usize>,
    },
    /// These records wait for one another, the last for the first.
    Cycle(Vec<Wait>),
}

impl Reason {
    /// All records that have this number of the bank.
    pub fn double(
        alloc: Global,
        records: &Packed,
        bank: u8,
        number: u32,
    ) -> Result<Reason, NoMemory>
        ensures { IfOk result (TellsDouble records.now.records bank number) }
    {
        Ok(Reason::Double {
            bank,
            number,
            places: places_of_number(alloc, records, bank, number)?,
        })
    }

    /// The records of the bank with the greatest number below this one, and those with the least above.
    pub fn missing(
        alloc: Global,
        records: &Packed,
        bank: u8,
        number: u32,
    ) -> Result<Reason, NoMemory>
        ensures { IfOk result (TellsMissing records.now.records bank number) }
    {
        Ok(Reason::Missing {
            bank,
            number,
            below: nearest_below(alloc, records, bank, number)?,
            above: nearest_above(alloc, records, bank, number)?,
        })
    }

    /// The record of each knot of a ring, and the record that it waits for. Where the knots are a ring in the logs of
    /// the trace, each of these comes after the next, and the last after the first.
    pub fn cycle(alloc: Global, records: &Packed, ring: &[Knot]) -> Result<Reason, NoMemory>
        ensures { IfOk result (TellsCycle records.now.records ring.now) }
    {
        Ok(Reason::Cycle(waits_of(alloc, records, ring)?))
    }
}
