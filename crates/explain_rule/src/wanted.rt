//! Which register a miss has to take that took another one.

ghost use Rattle.std.specs.Prelude.{◌≡◌, ◌<◌, IfOk};
ghost use Rattle.lf_rules.specs.InRange.{IsShape};
ghost use Rattle.explain_history.specs.Touching.{record_at};
ghost use Rattle.explain_rule.specs.Wanted.{merged, second_merged, wanted_part, register_of_any, wanted_at};

use crate::origins::named_address;
use explain_history::{record_at, room};
use explain_origins::{StatePart, register_of};
use explain_replay::Broken;
use lf_codec::Packed;
use lf_rules::{Event, NoMemory, OrgShape, Rule, Shape};
use std::alloc::Global;

/// The targets of the block of a merge at level one, which is at this address. In an inverted file each miss has a
/// register of its own.
fn merged(shape: &Shape, organisation: OrgShape, address: Option<u64>) -> Option<StatePart>
    requires { 0 < shape.now.block }
    ensures { result ≡ merged shape.now organisation address }
{
    match organisation {
        OrgShape::Inverted => None,
        OrgShape::Implicit { .. } | OrgShape::Explicit { .. } => Some(StatePart::Targets1 {
            block: address? / u64::from(shape.block),
        }),
    }
}

/// The targets of the second-level block of a merge at level two, or in an inverted file those of its block at level
/// one.
fn second_merged(shape: &Shape, organisation: OrgShape, block: u32) -> StatePart
    requires { 0 < shape.now.factor }
    ensures { result ≡ second_merged shape.now organisation block }
{
    match organisation {
        OrgShape::Inverted => StatePart::Targets1 {
            block: u64::from(block),
        },
        OrgShape::Implicit { .. } | OrgShape::Explicit { .. } => StatePart::Targets2 {
            second: u64::from(block / shape.factor),
        },
    }
}

/// The part of the state whose register a miss has to take, where that is not the one of its request.
fn wanted_part(shape: &Shape, address: Option<u64>, event: &Event) -> Option<StatePart>
    requires { IsShape shape.now }
    ensures { result ≡ wanted_part shape.now address event.now }
{
    match event {
        Event::Merge { .. } => merged(shape, shape.level1.organisation, address),
        Event::SecondPrimary { block, .. } => Some(StatePart::Targets1 {
            block: u64::from(*block),
        }),
        Event::SecondMerge { block, .. } => {
            Some(second_merged(shape, shape.level2.organisation, *block))
        }
        _ => None,
    }
}

/// The register of the part, where there is one.
fn register_of_any(
    alloc: Global,
    shape: &Shape,
    records: &Packed,
    before: &[Option<usize>],
    part: Option<StatePart>,
) -> Result<Option<u32>, NoMemory>
    requires { IsShape shape.now }
    ensures { IfOk result (λ register.
        register ≡ register_of_any shape.now records.now.records before.now part) }
{
    match part {
        Some(part) => register_of(alloc, shape, records, before, part),
        None => Ok(None),
    }
}

/// The register that the record at the place has to name, where it breaks the rule.
pub(crate) fn wanted_at(
    alloc: Global,
    shape: &Shape,
    records: &Packed,
    before: &[Option<usize>],
    rule: Rule,
    broken: &Option<Broken>,
    place: Option<usize>,
) -> Result<Option<u32>, NoMemory>
    requires { IsShape shape.now }
    ensures { IfOk result (λ wanted. wanted ≡ wanted_at shape.now records.now.records before.now rule broken.now
        (record_at records.now.records place)) }
{
    if !matches!(rule, Rule::WrongRegister) {
        return Ok(None);
    }
    let mut room = room();
    match record_at(records, place, &mut room) {
        Some(item) => {
            let part = wanted_part(shape, named_address(broken), &item.event);
            register_of_any(alloc, shape, records, before, part)
        }
        None => Ok(None),
    }
}
