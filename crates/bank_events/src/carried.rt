//! Whether the bytes that an event of level two carries are those of flat memory.

ghost use Rattle.std.specs.Prelude.{◌≡◌, ◌<◌, ◌*◌, ℕ, Some, length};
ghost use Rattle.std.specs.List.{list_all};
ghost use Rattle.lf_rules.specs.InRange.{IsShape};
ghost use Rattle.lf_rules.specs.Address.{places, sub_block};
ghost use Rattle.bank_cells.specs.Cells.{IsCell, IsPlace, cell_of, place_of};
ghost use Rattle.bank_events.specs.Wide.{part_agrees};

use bank_cells::Cells;
use bank_state::part_at;
use lf_rules::Shape;

/// Whether the part of the bytes at this place is that of a cell's block, off the bytes that stores wrote.
fn part_agrees(shape: &Shape, cells: &Cells, cell: usize, bytes: &[u8], part: u32) -> bool
    requires in_range { IsShape shape.now }
    requires there { IsCell cells.now cell }
    requires inside { part < shape.now.factor }
    requires whole { length bytes.now ≡ shape.now.factor * shape.now.block }
    ensures { (second : ℕ) → cell_of cells.now (sub_block shape.now second part) ≡ Some cell →
        result ≡ part_agrees shape.now cells.now second bytes.now part }
{
    cells.agrees(cell, part_at(shape.block as usize, bytes, part as usize))
}

/// Whether a fill of level two carries memory's bytes, off those that stores wrote of its blocks.
pub fn wide_agrees(shape: &Shape, cells: &Cells, place: usize, bytes: &[u8]) -> bool
    requires in_range { IsShape shape.now }
    requires factor { cells.now.factor ≡ shape.now.factor }
    requires there { IsPlace cells.now place }
    requires whole { length bytes.now ≡ shape.now.factor * shape.now.block }
    ensures { (second : ℕ) → place_of cells.now second ≡ Some place →
        result ≡ list_all (part_agrees shape.now cells.now second bytes.now) (places shape.now) }
{
    let first = cells.first_of(place);
    for part in 0..shape.factor {
        if !part_agrees(shape, cells, first + part as usize, bytes, part) {
            return false;
        }
    }
    true
}
