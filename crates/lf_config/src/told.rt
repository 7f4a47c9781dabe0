//! The shape that a document tells, where it breaks no rule.

ghost use Rattle.std.specs.Prelude.{◌≡◌};
ghost use Rattle.std.specs.Option.{option_map_or};
ghost use Rattle.toml.specs.Data.{as_integer};
ghost use Rattle.toml.specs.View.{view, table_view};
ghost use Rattle.lf_config.specs.Rules.{organisation_at};
ghost use Rattle.lf_config.specs.Told.{number_of, number_at, factor_at, organisation_named, level_of, shape_of};

use crate::key::{Key, LevelKey, Part};
use crate::lookup::value;
use crate::rules::organisation;
use lf_rules::{Level, OrgShape, Shape};
use toml::{Table, Value};

fn number_of(value: &Value) -> u32
    ensures { result ≡ option_map_or number_of (as_integer (view value.now)) 0 }
{
    match value.as_integer() {
        Some(number) => u32::try_from(number).unwrap_or(0),
        None => 0,
    }
}

fn number(table: &Table, key: Key) -> u32
    ensures { result ≡ number_at (table_view table.now) key }
{
    match value(table, key) {
        Some(value) => number_of(value),
        None => 0,
    }
}

/// First-level blocks in a block of level two.
fn factor(table: &Table) -> u32
    ensures { result ≡ factor_at (table_view table.now) }
{
    match value(table, Key::Blocks) {
        Some(value) => number_of(value),
        None => 1,
    }
}

fn organisation_shape(table: &Table, which: LevelKey) -> OrgShape
    ensures { result ≡ organisation_named (table_view table.now) which (organisation_at (table_view table.now) which) }
{
    let registers = number(table, Key::Of(which, Part::Registers));
    let entries = number(table, Key::Of(which, Part::Entries));
    match organisation(table, which) {
        Some("implicit") => OrgShape::Implicit { registers },
        Some("explicit") => OrgShape::Explicit { registers, entries },
        _ => OrgShape::Inverted,
    }
}

fn level_shape(table: &Table, which: LevelKey) -> Level
    ensures { result ≡ level_of (table_view table.now) which }
{
    Level {
        sets: number(table, Key::Of(which, Part::Sets)),
        ways: number(table, Key::Of(which, Part::Ways)),
        organisation: organisation_shape(table, which),
    }
}

#[tactic(auto, unfolding(crate::specs::Told::shape_of))]
pub(crate) fn shape(table: &Table) -> Shape
    ensures { result ≡ shape_of (table_view table.now) }
{
    Shape {
        ports: number(table, Key::Ports),
        banks: number(table, Key::Banks),
        block: number(table, Key::Block),
        tags: number(table, Key::Tags),
        factor: factor(table),
        level1: level_shape(table, LevelKey::One),
        level2: level_shape(table, LevelKey::Two),
    }
}
