//! The records of a bank, in the order of their numbers.

ghost use Rattle.std.specs.Prelude.{◌≡◌, IfOk};
ghost use Rattle.std.specs.List.{AllByRecursion};
ghost use Rattle.explain_history.specs.BankOrder.{records_at, in_order};
ghost use Rattle.explain_history.specs.Places.{places_of_numbers};

use crate::places::places_of_numbers;
use lf_codec::Packed;
use lf_rules::NoMemory;
use std::alloc::Global;

/// The places of the bank's records with the numbers 0 to `count - 1`, in the order of their numbers. None
/// stands where a number has no record.
pub fn places_in_order(
    alloc: Global,
    records: &Packed,
    bank: u8,
    count: usize,
) -> Result<Vec<Option<usize>>, NoMemory>
    ensures places { IfOk result (λ places. places.items ≡ places_of_numbers bank records.now.records count) }
    ensures records { IfOk result (λ places.
        records_at records.now.records places.items ≡ in_order bank records.now.records count) }
    ensures named { IfOk result (λ places.
        AllByRecursion (λ r. r.bank ≡ bank) (records_at records.now.records places.items)) }
{
    places_of_numbers(alloc, records, bank, count)
}
