//! How many the configuration has of what a rule is about.

ghost use Rattle.std.specs.Prelude.{◌≡◌, Some};
ghost use Rattle.lf_rules.specs.InRange.{IsShape};
ghost use Rattle.lf_rules.specs.Registers.{registers_of};
ghost use Rattle.lf_rules.specs.Table.{destinations};
ghost use Rattle.explain_history.specs.Touching.{record_at};
ghost use Rattle.explain_rule.specs.Limit.{registers1, registers2, registers_limit, targets_of, targets1, targets2};
ghost use Rattle.explain_rule.specs.Limit.{targets_limit, ways_limit, is_held, is_any_held, room_of, room_limit};
ghost use Rattle.explain_rule.specs.Limit.{limit_of, limit_at, limit_text, limit_line, free_text};

use explain_history::{record_at, room};
use explain_replay::{Broken, NamedBlock};
use lf_codec::Packed;
use lf_levels::{Level, One, Two};
use lf_rules::{Event, OrgShape, Rule, Shape};
use std::fmt;

/// How many the configuration has of what a rule is about.
#[derive(Clone, Copy, PartialEq, Eq)]
pub enum Limit {
    /// The tags of a port.
    Tags(u32),
    /// The registers of a level.
    Registers(u32),
    /// The ways of a set.
    Ways { set: u32, ways: u32 },
    /// The targets that a register takes.
    Targets(u32),
    /// The words of a block: a register takes one target for each.
    Words(u32),
    /// The blocks of a second-level block: a register takes one target for each.
    Blocks(u32),
}

fn registers_of(organisation: OrgShape, destinations: u32) -> u32
    ensures { result ≡ registers_of organisation destinations }
{
    match organisation {
        OrgShape::Implicit { registers } | OrgShape::Explicit { registers, .. } => registers,
        OrgShape::Inverted => destinations,
    }
}

fn destinations(shape: &Shape) -> u32
    requires { IsShape shape.now }
    ensures { result ≡ destinations shape.now }
{
    shape.ports * shape.tags
}

/// How many registers level one has.
fn registers1(shape: &Shape) -> u32
    requires { IsShape shape.now }
    ensures { result ≡ registers1 shape.now }
{
    registers_of(shape.level1.organisation, destinations(shape))
}

/// How many registers level two has.
fn registers2(shape: &Shape) -> u32
    requires { IsShape shape.now }
    ensures { result ≡ registers2 shape.now }
{
    registers_of(shape.level2.organisation, registers1(shape))
}

/// How many registers the level of a miss has.
fn registers_limit(shape: &Shape, event: &Event) -> Option<Limit>
    requires { IsShape shape.now }
    ensures { result ≡ registers_limit shape.now event.now }
{
    match event {
        Event::Primary { .. } | Event::Merge { .. } => Some(Limit::Registers(registers1(shape))),
        Event::SecondPrimary { .. } | Event::SecondMerge { .. } => {
            Some(Limit::Registers(registers2(shape)))
        }
        _ => None,
    }
}

/// How many targets a register takes: one for each of these where it has a field for each.
fn targets_of(organisation: OrgShape, fields: Limit) -> Limit
    ensures { result ≡ targets_of organisation fields }
{
    match organisation {
        OrgShape::Implicit { .. } => fields,
        OrgShape::Explicit { entries, .. } => Limit::Targets(entries),
        OrgShape::Inverted => Limit::Targets(1),
    }
}

fn targets1(shape: &Shape) -> Limit
    ensures { result ≡ targets1 shape.now }
{
    targets_of(shape.level1.organisation, Limit::Words(shape.block / 8))
}

fn targets2(shape: &Shape) -> Limit
    ensures { result ≡ targets2 shape.now }
{
    targets_of(shape.level2.organisation, Limit::Blocks(shape.factor))
}

/// How many targets a register takes at the level of a merge.
fn targets_limit(shape: &Shape, event: &Event) -> Option<Limit>
    ensures { result ≡ targets_limit shape.now event.now }
{
    match event {
        Event::Merge { .. } => Some(targets1(shape)),
        Event::SecondMerge { .. } => Some(targets2(shape)),
        _ => None,
    }
}

/// How many ways the set has that a block is filled into.
fn ways_limit(shape: &Shape, event: &Event) -> Option<Limit>
    requires { IsShape shape.now }
    ensures { result ≡ ways_limit shape.now event.now }
{
    match event {
        Event::Fill1 { block, .. } => Some(Limit::Ways {
            set: One::set_of(shape.banks, shape.factor, shape.level1.sets, *block),
            ways: shape.level1.ways,
        }),
        Event::Fill2 { block, .. } => Some(Limit::Ways {
            set: Two::set_of(shape.banks, shape.factor, shape.level2.sets, *block),
            ways: shape.level2.ways,
        }),
        _ => None,
    }
}

/// Whether a register of the level of a stall holds the first of these blocks.
fn is_held(blocks: &[NamedBlock], event: &Event) -> bool
    ensures { result ≡ is_held blocks.now event.now }
{
    let Some(named) = blocks.first() else {
        return false;
    };
    match event {
        Event::Stall { .. } => named.state.held,
        Event::SecondStall { .. } => named.state.fetched,
        _ => false,
    }
}

fn is_any_held(broken: &Option<Broken>, event: &Event) -> bool
    ensures { result ≡ is_any_held broken.now event.now }
{
    match broken {
        Some(broken) => is_held(&broken.blocks, event),
        None => false,
    }
}

/// What a miss needs: a place in the register that holds its block, where it has to join that, or a register.
fn room_of(organisation: OrgShape, held: bool, registers: u32, targets: Limit) -> Limit
    ensures { result ≡ room_of organisation held registers targets }
{
    match organisation {
        OrgShape::Inverted => Limit::Registers(registers),
        OrgShape::Implicit { .. } | OrgShape::Explicit { .. } => {
            if held {
                targets
            } else {
                Limit::Registers(registers)
            }
        }
    }
}

/// How many there are of what a stall waits for.
fn room_limit(shape: &Shape, held: bool, event: &Event) -> Option<Limit>
    requires { IsShape shape.now }
    ensures { result ≡ room_limit shape.now held event.now }
{
    match event {
        Event::Stall { .. } => {
            let registers = registers1(shape);
            let targets = targets1(shape);
            Some(room_of(shape.level1.organisation, held, registers, targets))
        }
        Event::SecondStall { .. } => {
            let registers = registers2(shape);
            let targets = targets2(shape);
            Some(room_of(shape.level2.organisation, held, registers, targets))
        }
        _ => None,
    }
}

/// How many the configuration has of what the rule is about, which an event breaks.
fn limit_of(shape: &Shape, rule: Rule, broken: &Option<Broken>, event: &Event) -> Option<Limit>
    requires { IsShape shape.now }
    ensures { result ≡ limit_of shape.now rule broken.now event.now }
{
    match rule {
        Rule::TagRange => Some(Limit::Tags(shape.tags)),
        Rule::RegisterRange => registers_limit(shape, event),
        Rule::MergeFull => targets_limit(shape, event),
        Rule::NeedlessStall => room_limit(shape, is_any_held(broken, event), event),
        Rule::SetFull => ways_limit(shape, event),
        _ => None,
    }
}

/// The same of the record at a place, and none where there is no record.
pub(crate) fn limit_at(
    shape: &Shape,
    records: &Packed,
    rule: Rule,
    broken: &Option<Broken>,
    place: Option<usize>,
) -> Option<Limit>
    requires { IsShape shape.now }
    ensures { result ≡ limit_at shape.now rule broken.now (record_at records.now.records place) }
{
    let mut room = room();
    match record_at(records, place, &mut room) {
        Some(item) => limit_of(shape, rule, broken, &item.event),
        None => None,
    }
}

/// How many there are, as a line of its own.
impl fmt::Display for Limit {
    ghost output = { λ limit. Some (limit_line limit) };

    fn fmt<W: fmt::Write>(&self, f: &mut fmt::Formatter<W>) -> fmt::Result {
        match self {
            Limit::Tags(tags) => write!(f, "  there are tags={tags}\n"),
            Limit::Registers(registers) => write!(f, "  there are registers={registers}\n"),
            Limit::Ways { set, ways } => write!(f, "  there are ways={ways} in set={set}\n"),
            Limit::Targets(targets) => write!(f, "  a register takes targets={targets}\n"),
            Limit::Words(words) => {
                write!(
                    f,
                    "  a register takes one target for each of words={words}\n"
                )
            }
            Limit::Blocks(blocks) => {
                write!(
                    f,
                    "  a register takes one target for each of blocks={blocks}\n"
                )
            }
        }
    }
}

/// How many there are of what a rule is about, where it is told.
#[derive(Clone, Copy)]
pub(crate) struct LimitLine(pub Option<Limit>);

impl fmt::Display for LimitLine {
    ghost output = { λ line. Some (limit_text line.0) };

    fn fmt<W: fmt::Write>(&self, f: &mut fmt::Formatter<W>) -> fmt::Result {
        match self.0 {
            Some(limit) => write!(f, "{limit}"),
            None => Ok(()),
        }
    }
}

/// The register that is free, where one is.
#[derive(Clone, Copy)]
pub(crate) struct FreeLine(pub Option<u32>);

impl fmt::Display for FreeLine {
    ghost output = { λ line. Some (free_text line.0) };

    fn fmt<W: fmt::Write>(&self, f: &mut fmt::Formatter<W>) -> fmt::Result {
        match self.0 {
            Some(register) => write!(f, "  free register={register}\n"),
            None => Ok(()),
        }
    }
}
