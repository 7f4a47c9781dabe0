//! The register that holds a block.

ghost use Rattle.std.specs.Prelude.{◌≡◌, slice_get, IfOk};
ghost use Rattle.lf_rules.specs.InRange.{IsShape};
ghost use Rattle.explain_origins.specs.Holding.{register_in, first_register, register_of};

use crate::events::named_register;
use crate::parts::StatePart;
use crate::standing::{Origin, origins_standing};
use explain_history::{record_at, room};
use lf_codec::Packed;
use lf_rules::{NoMemory, Shape};
use std::alloc::Global;

/// The register that the miss at the place names.
pub fn register_at(records: &Packed, place: usize) -> Option<u32>
    ensures { result ≡ register_in (slice_get records.now.records place) }
{
    let mut room = room();
    let item = record_at(records, Some(place), &mut room)?;
    match named_register(&item.event) {
        Some(named) => Some(u32::from(named)),
        None => None,
    }
}

/// The register that the first of these misses took.
fn first_register(records: &Packed, misses: &[Origin]) -> Option<u32>
    ensures { result ≡ first_register records.now.records misses.now }
{
    match misses.first() {
        Some(miss) => register_at(records, miss.place),
        None => None,
    }
}

/// The register of this part of the state, which are the targets of a block: that of its primary miss, of those at the
/// places before.
pub fn register_of(
    alloc: Global,
    shape: &Shape,
    records: &Packed,
    before: &[Option<usize>],
    part: StatePart,
) -> Result<Option<u32>, NoMemory>
    requires { IsShape shape.now }
    ensures { IfOk result (λ register. register ≡ register_of shape.now records.now.records before.now part) }
{
    let misses = origins_standing(alloc, shape, records, before, part)?;
    Ok(first_register(records, &misses))
}
