//! Which records the state comes from that a rule is about.

ghost use Rattle.std.specs.Prelude.{◌≡◌, ◌<◌, IfOk};
ghost use Rattle.lf_rules.specs.InRange.{IsShape};
ghost use Rattle.explain_origins.specs.Origins.{filled_set, registers, targets_named, queue, evicted_second};
ghost use Rattle.explain_origins.specs.Origins.{dirty_line, last_store, busy_tag, replied, line1_at, line2_of, part_of};
ghost use Rattle.explain_origins.specs.Origins.{AreOriginsOfAny, AreOrigins};

use crate::parts::StatePart;
use crate::requests::{block_at, offset_at};
use crate::seen::seen_by;
use crate::standing::{Origin, origins_standing};
use lf_codec::Packed;
use lf_levels::{Level, One, Two};
use lf_rules::{Event, NoMemory, Record, Rule, Shape};
use std::alloc::Global;

/// A rule that a record breaks.
#[derive(Clone, Copy)]
pub struct BrokenRule<'a> {
    pub rule: Rule,
    pub item: &'a Record,
    /// Where the rule is about bytes, the address of the first that differs, and where it is about the block of a
    /// request, an address in that.
    pub address: Option<u64>,
    /// Where a stall is needless, the register that is free.
    pub free: Option<u32>,
    /// Where the rule is about bytes, the first that differs as the record has it.
    pub value: Option<u8>,
}

/// A part of the state, and the records that it comes from, in their order.
#[derive(Drop, PartialEq, Eq)]
pub struct Origins {
    pub part: StatePart,
    pub records: Vec<Origin>,
}

/// The set that a block is to be filled into.
fn filled_set(shape: &Shape, event: &Event) -> Option<StatePart>
    requires { IsShape shape.now }
    ensures { result ≡ filled_set shape.now event.now }
{
    match event {
        Event::Fill1 { block, .. } => Some(StatePart::LinesOfSet1 {
            set: One::set_of(shape.banks, shape.factor, shape.level1.sets, *block),
        }),
        Event::Fill2 { block, .. } => Some(StatePart::LinesOfSet2 {
            set: Two::set_of(shape.banks, shape.factor, shape.level2.sets, *block),
        }),
        _ => None,
    }
}

/// The registers of the level that a miss is at.
fn registers(event: &Event) -> Option<StatePart>
    ensures { result ≡ registers event.now }
{
    match event {
        Event::Primary { .. } | Event::Merge { .. } | Event::Stall { .. } => {
            Some(StatePart::Registers1)
        }
        Event::SecondPrimary { .. } | Event::SecondMerge { .. } | Event::SecondStall { .. } => {
            Some(StatePart::Registers2)
        }
        _ => None,
    }
}

/// The targets of the register that a miss names.
fn targets_named(event: &Event) -> Option<StatePart>
    ensures { result ≡ targets_named event.now }
{
    match event {
        Event::Primary { register, .. } | Event::Merge { register, .. } => {
            Some(StatePart::Register1 {
                register: u32::from(*register),
            })
        }
        Event::SecondPrimary { register, .. } | Event::SecondMerge { register, .. } => {
            Some(StatePart::Register2 {
                register: u32::from(*register),
            })
        }
        _ => None,
    }
}

/// The requests that wait of the port whose request is accepted or stalls.
fn queue(event: &Event) -> Option<StatePart>
    ensures { result ≡ queue event.now }
{
    match event {
        Event::Hit { port, .. }
        | Event::Primary { port, .. }
        | Event::Merge { port, .. }
        | Event::Stall { port, .. } => Some(StatePart::Queue { port: *port }),
        _ => None,
    }
}

/// What level one has on the second-level block that is to be evicted.
fn evicted_second(event: &Event) -> Option<StatePart>
    ensures { result ≡ evicted_second event.now }
{
    match event {
        Event::Evict2 { block, .. } => Some(StatePart::WithinSecond {
            second: u64::from(*block),
        }),
        _ => None,
    }
}

/// What made bytes of the line dirty that is to be evicted.
fn dirty_line(event: &Event) -> Option<StatePart>
    ensures { result ≡ dirty_line event.now }
{
    match event {
        Event::Evict1 { block, .. } => Some(StatePart::DirtyLine1 {
            block: u64::from(*block),
        }),
        Event::Evict2 { block, .. } => Some(StatePart::DirtyLine2 {
            second: u64::from(*block),
        }),
        _ => None,
    }
}

/// The last store to the byte at an address.
fn last_store(shape: &Shape, address: Option<u64>) -> Option<StatePart>
    requires { 0 < shape.now.block }
    ensures { result ≡ last_store shape.now address }
{
    let address = address?;
    Some(StatePart::LastStore {
        block: block_at(shape, address),
        offset: offset_at(shape, address),
    })
}

/// The request with the tag that is issued.
fn busy_tag(item: &Record) -> Option<StatePart>
    ensures { result ≡ busy_tag item.now.log item.now.event }
{
    match &item.event {
        Event::Issue { tag, .. } => Some(StatePart::BusyTag {
            port: item.log,
            tag: *tag,
        }),
        _ => None,
    }
}

/// The request that a reply is to.
fn replied(item: &Record) -> Option<StatePart>
    ensures { result ≡ replied item.now.log item.now.event }
{
    match &item.event {
        Event::Reply { tag, .. } => Some(StatePart::BusyTag {
            port: item.log,
            tag: *tag,
        }),
        _ => None,
    }
}

/// The line of level one on the block at an address.
fn line1_at(shape: &Shape, address: Option<u64>) -> Option<StatePart>
    requires { 0 < shape.now.block }
    ensures { result ≡ line1_at shape.now address }
{
    Some(StatePart::Line1 {
        block: block_at(shape, address?),
    })
}

/// The line of level two that a miss at level two is beside.
fn line2_of(shape: &Shape, event: &Event) -> Option<StatePart>
    requires { 0 < shape.now.factor }
    ensures { result ≡ line2_of shape.now event.now }
{
    match event {
        Event::SecondPrimary { block, .. }
        | Event::SecondMerge { block, .. }
        | Event::SecondStall { block } => Some(StatePart::Line2 {
            second: u64::from(*block / shape.factor),
        }),
        _ => None,
    }
}

/// The part of the state that the rule is about.
fn part_of(shape: &Shape, broken: BrokenRule<'_>) -> Option<StatePart>
    requires { IsShape shape.now }
    ensures { result ≡ part_of shape.now broken.entry.rule broken.entry.address broken.entry.item.now }
{
    let BrokenRule {
        rule,
        item,
        address,
        ..
    } = broken;
    let event = &item.event;
    match rule {
        Rule::SetFull => filled_set(shape, event),
        Rule::PrimaryInFlight | Rule::NotInFlight | Rule::WrongRegister | Rule::NeedlessStall =>
            registers(event),
        Rule::RegisterBusy | Rule::MergeFull => targets_named(event),
        Rule::NotHead => queue(event),
        Rule::NotReady => Some(StatePart::Unanswered { port: item.log }),
        Rule::NotOutstanding | Rule::FenceBusy => Some(StatePart::Outstanding { port: item.log }),
        Rule::TagBusy => busy_tag(item),
        Rule::ReplySize => replied(item),
        Rule::Present => line1_at(shape, address),
        Rule::SecondPresent => line2_of(shape, event),
        Rule::Inclusion => evicted_second(event),
        Rule::EvictMask => dirty_line(event),
        Rule::ReplyData | Rule::FillData | Rule::EvictData => last_store(shape, address),
        _ => None,
    }
}

/// The records that this part of the state comes from, of those at the places before.
fn origins_in(
    alloc: Global,
    shape: &Shape,
    records: &Packed,
    before: &[Option<usize>],
    part: Option<StatePart>,
) -> Result<Option<Origins>, NoMemory>
    requires { IsShape shape.now }
    ensures { IfOk result (AreOriginsOfAny shape.now records.now.records before.now part) }
{
    let Some(part) = part else {
        return Ok(None);
    };
    let records = origins_standing(alloc, shape, records, before, part)?;
    Ok(Some(Origins { part, records }))
}

/// The records that the state comes from which a rule is about, of those at the places before. None where it is
/// about nothing that other records leave. The data of a reply come from what was before the acceptance of its
/// request. A place that is none, or beyond the records, has no record.
pub fn origins_of(
    alloc: Global,
    shape: &Shape,
    records: &Packed,
    before: &[Option<usize>],
    broken: BrokenRule<'_>,
) -> Result<Option<Origins>, NoMemory>
    requires { IsShape shape.now }
    ensures { IfOk result (AreOrigins shape.now records.now.records before.now broken.entry.rule broken.entry.address
        broken.entry.item.now) }
{
    let seen = seen_by(records, before, broken.rule, broken.item);
    origins_in(alloc, shape, records, seen, part_of(shape, broken))
}
