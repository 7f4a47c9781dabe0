//! What is told of a bank: the points that it can reach, with their counts.

ghost use Rattle.std.specs.Prelude.{◌≡◌, ℕ, ◌<◌, ◌++◌, ◌∷◌, [], OnOk, map, filter, slice_index};
ghost use Rattle.std.specs.List.{flat_map};
ghost use Rattle.lf_rules.specs.InRange.{IsShape};
ghost use Rattle.count_coverage.specs.declared.point.BankPoint.{BankPoint};
ghost use Rattle.count_coverage.specs.declared.point.BankPoint.TheVariants as points;
ghost use Rattle.count_coverage.specs.Counted.{AreCounts, tally_of};
ghost use Rattle.count_coverage.specs.Reachable.{can_reach, kinds, all_measures, points_of, bank_points};

use crate::counts::{Counts, KINDS};
use crate::point::{BankPoint, Measure, Point};
use crate::reachable::can_reach;
use crate::tally::Tally;
use lf_rules::{NoMemory, Shape};

const MEASURES: [Measure; 7] = [
    Measure::DirtyBlocks,
    Measure::Registers,
    Measure::Targets,
    Measure::Field,
    Measure::MergePort,
    Measure::SecondTargets,
    Measure::SecondField,
];

/// Adds the point with its count, where a bank can reach it.
fn add(
    tallies: &mut Vec<Tally>,
    shape: &Shape,
    bank: u8,
    point: BankPoint,
    count: u32,
) -> Result<(), NoMemory>
    requires { IsShape shape.now }
    ensures { OnOk result ((counts : BankPoint → ℕ) → count ≡ counts point → tallies.new.items
        ≡ tallies.old.items ++ map (tally_of bank counts) (filter (can_reach shape.now) (point ∷ []))) }
{
    if can_reach(shape, point) {
        let point = Point::Bank { bank, point };
        tallies.push(Tally { point, count })?;
    }
    Ok(())
}

/// Adds those of a kind.
fn add_kinds(
    tallies: &mut Vec<Tally>,
    shape: &Shape,
    bank: u8,
    counts: &Counts,
) -> Result<(), NoMemory>
    requires { IsShape shape.now }
    ensures { OnOk result ((count : BankPoint → ℕ) → AreCounts counts.now count → tallies.new.items
        ≡ tallies.old.items ++ map (tally_of bank count) (filter (can_reach shape.now) kinds)) }
{
    for (i, point) in KINDS.iter().enumerate() {
        add(tallies, shape, bank, *point, counts.kinds[i])?;
    }
    Ok(())
}

/// Adds those of a measure, whose numbers have these counts.
fn add_numbers(
    tallies: &mut Vec<Tally>,
    shape: &Shape,
    bank: u8,
    measure: Measure,
    counts: &[u32; 65],
) -> Result<(), NoMemory>
    requires { IsShape shape.now }
    ensures { OnOk result ((count : BankPoint → ℕ)
        → ((n : ℕ) → n < 65 → slice_index counts.now n ≡ count (points.Numbered measure n))
        → tallies.new.items ≡ tallies.old.items ++ map (tally_of bank count) (points_of shape.now measure)) }
{
    for (number, count) in counts.iter().enumerate() {
        let point = BankPoint::Numbered(measure, number as u32);
        add(tallies, shape, bank, point, *count)?;
    }
    Ok(())
}

/// Adds those of each measure.
fn add_measures(
    tallies: &mut Vec<Tally>,
    shape: &Shape,
    bank: u8,
    counts: &Counts,
) -> Result<(), NoMemory>
    requires { IsShape shape.now }
    ensures { OnOk result ((count : BankPoint → ℕ) → AreCounts counts.now count → tallies.new.items
        ≡ tallies.old.items ++ map (tally_of bank count) (flat_map (points_of shape.now) all_measures)) }
{
    for measure in &MEASURES {
        add_numbers(tallies, shape, bank, *measure, counts.numbers(*measure))?;
    }
    Ok(())
}

/// Adds what a bank reached, which has these counts.
pub(crate) fn add_bank(
    tallies: &mut Vec<Tally>,
    shape: &Shape,
    bank: u8,
    counts: &Counts,
) -> Result<(), NoMemory>
    requires { IsShape shape.now }
    ensures { OnOk result ((count : BankPoint → ℕ) → AreCounts counts.now count
        → tallies.new.items ≡ tallies.old.items ++ map (tally_of bank count) (bank_points shape.now)) }
{
    add_kinds(tallies, shape, bank, counts)?;
    add_measures(tallies, shape, bank, counts)?;
    Ok(())
}
