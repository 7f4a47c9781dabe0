//! The blocks of a second-level block that comes into level two.

ghost use Rattle.std.specs.Prelude.{◌≡◌, ◌<◌, ◌*◌, ℕ, Some, length, slice_index_or};
ghost use Rattle.lf_rules.specs.InRange.{IsShape};
ghost use Rattle.lf_mshr.specs.declared.level_two.Request2.{Request2};
ghost use Rattle.bank_cells.specs.Cells.{IsPlace, IsPlacedAlike, place_of};
ghost use Rattle.bank_cells.specs.Cells.{first_at, written_at, dirty_at, memory_at, second_at};
ghost use Rattle.bank_events.specs.KnownAfter.{dirty_cleared};
ghost use Rattle.bank_events.specs.Wide.{supplied_by};

use bank_cells::{Cells, Fetch, First};
use lf_mshr::Request2;
use lf_rules::Shape;

/// No block of the place is dirty in the line of level two.
pub fn clean(cells: &mut Cells, shape: &Shape, place: usize)
    requires in_range { IsShape shape.now }
    requires factor { cells.old.factor ≡ shape.now.factor }
    requires there { IsPlace cells.old place }
    ensures dirty { (second : ℕ) → place_of cells.old second ≡ Some place →
        dirty_at cells.new ≡ dirty_cleared shape.now (dirty_at cells.old) second }
    ensures first { first_at cells.new ≡ first_at cells.old }
    ensures written { written_at cells.new ≡ written_at cells.old }
    ensures memory { memory_at cells.new ≡ memory_at cells.old }
    ensures second { second_at cells.new ≡ second_at cells.old }
    ensures placed { IsPlacedAlike cells.old cells.new }
{
    let first = cells.first_of(place);
    for part in 0..shape.factor {
        cells.clear_dirty(first + part as usize);
    }
}

/// Each block of the place that a target asks for is supplied, in the order of acceptance.
pub fn supply(cells: &mut Cells, place: usize, targets: &[(u16, Request2)])
    requires there { IsPlace cells.old place }
    requires inside { (i : ℕ) (t : ℕ × Request2) → i < length targets.now → t ≡ slice_index_or targets.now i t →
        t.1.position < cells.old.factor }
    ensures first { (second : ℕ) → place_of cells.old second ≡ Some place →
        first_at cells.new ≡ supplied_by (second * cells.old.factor) (first_at cells.old) targets.now }
    ensures written { written_at cells.new ≡ written_at cells.old }
    ensures dirty { dirty_at cells.new ≡ dirty_at cells.old }
    ensures memory { memory_at cells.new ≡ memory_at cells.old }
    ensures second { second_at cells.new ≡ second_at cells.old }
    ensures placed { IsPlacedAlike cells.old cells.new }
{
    let first = cells.first_of(place);
    for (_, target) in targets {
        let cell = first + usize::from(target.position);
        let (register, fetch) = (target.destination, Fetch::Supplied);
        cells.set_first(cell, First::InFlight { register, fetch });
    }
}
