//! Which register is free where a stall is needless.

ghost use Rattle.std.specs.Prelude.{◌≡◌, slice_get, IfOk};
ghost use Rattle.lf_rules.specs.InRange.{IsShape};
ghost use Rattle.lf_rules.specs.Table.{destination};
ghost use Rattle.explain_history.specs.Touching.{record_at};
ghost use Rattle.explain_origins.specs.Events.{is_key};
ghost use Rattle.explain_origins.specs.Holding.{register_in};
ghost use Rattle.explain_rule.specs.Free.{is_named, lowest_free, free_in, free_of, free_at};

use crate::limit::Limit;
use explain_history::{record_at, room};
use explain_origins::{Origin, Origins, StatePart, register_at, register_of};
use lf_codec::Packed;
use lf_rules::{Event, NoMemory, OrgShape, Rule, Shape};
use std::alloc::Global;

/// Whether the miss at the place names the register.
fn names(records: &Packed, place: usize, register: u32) -> bool
    ensures { result ≡ is_key register (register_in (slice_get records.now.records place)) }
{
    match register_at(records, place) {
        Some(named) => register == named,
        None => false,
    }
}

/// Whether one of these misses names the register.
fn is_named(records: &Packed, all: &[Origin], register: u32) -> bool
    ensures { result ≡ is_named records.now.records all.now register }
{
    all.iter()
        .any(|origin| names(records, origin.place, register))
}

/// The lowest register that none of these misses names.
fn lowest_free(records: &Packed, all: &[Origin], count: u32) -> Option<u32>
    ensures { result ≡ lowest_free records.now.records all.now count }
{
    (0..count).find(|register| !is_named(records, all, *register))
}

/// The lowest register that no miss holds, where these hold registers; of an inverted file the one that is wanted.
fn free_in(
    records: &Packed,
    organisation: OrgShape,
    wanted: Option<u32>,
    count: u32,
    origins: &Option<Origins>,
) -> Option<u32>
    ensures { result ≡ free_in records.now.records organisation wanted count origins.now }
{
    match organisation {
        OrgShape::Inverted => wanted,
        OrgShape::Implicit { .. } | OrgShape::Explicit { .. } => match origins {
            Some(origins) => lowest_free(records, &origins.records, count),
            None => None,
        },
    }
}

/// The register of an inverted file that a request of the port and tag has to take.
fn destination(shape: &Shape, port: u8, tag: u8) -> u32
    requires { IsShape shape.now }
    ensures { result ≡ destination shape.now port tag }
{
    u32::from(port) * shape.tags + u32::from(tag)
}

/// The register that is free at a stall which waits for one of so many, after the records at the places before.
fn free_of(
    alloc: Global,
    shape: &Shape,
    records: &Packed,
    before: &[Option<usize>],
    limit: Option<Limit>,
    origins: &Option<Origins>,
    event: &Event,
) -> Result<Option<u32>, NoMemory>
    requires { IsShape shape.now }
    ensures { IfOk result (λ free.
        free ≡ free_of shape.now records.now.records before.now limit origins.now event.now) }
{
    let Some(Limit::Registers(count)) = limit else {
        return Ok(None);
    };
    match event {
        Event::Stall { port, tag } => {
            let wanted = Some(destination(shape, *port, *tag));
            let organisation = shape.level1.organisation;
            Ok(free_in(records, organisation, wanted, count, origins))
        }
        Event::SecondStall { block } => {
            let part = StatePart::Targets1 {
                block: u64::from(*block),
            };
            let wanted = register_of(alloc, shape, records, before, part)?;
            let organisation = shape.level2.organisation;
            Ok(free_in(records, organisation, wanted, count, origins))
        }
        _ => Ok(None),
    }
}

/// The same of the record at a place, where its stall is needless.
pub(crate) fn free_at(
    alloc: Global,
    shape: &Shape,
    records: &Packed,
    before: &[Option<usize>],
    rule: Rule,
    limit: Option<Limit>,
    origins: &Option<Origins>,
    place: Option<usize>,
) -> Result<Option<u32>, NoMemory>
    requires { IsShape shape.now }
    ensures { IfOk result (λ free. free ≡ free_at shape.now records.now.records before.now rule limit origins.now
        (record_at records.now.records place)) }
{
    if !matches!(rule, Rule::NeedlessStall) {
        return Ok(None);
    }
    let mut room = room();
    match record_at(records, place, &mut room) {
        Some(item) => free_of(alloc, shape, records, before, limit, origins, &item.event),
        None => Ok(None),
    }
}
