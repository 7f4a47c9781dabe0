//! Whether a second-level block may leave level two.

ghost use Rattle.std.specs.Prelude.{◌≡◌, ◌==◌, ℕ, Some, length};
ghost use Rattle.std.specs.List.{list_all};
ghost use Rattle.lf_rules.specs.Address.{places};
ghost use Rattle.trace_views.specs.Views.{masks_of};
ghost use Rattle.bank_cells.specs.Cells.{IsPlace, place_of};
ghost use Rattle.bank_events.specs.Wide.{part_absent, part_dirty};

use bank_cells::{Cells, First};
use lf_rules::Shape;
use trace_views::MasksView;

/// Whether level one has nothing of any block of the place.
pub fn all_absent(shape: &Shape, cells: &Cells, place: usize) -> bool
    requires factor { cells.now.factor ≡ shape.now.factor }
    requires there { IsPlace cells.now place }
    ensures { (second : ℕ) → place_of cells.now second ≡ Some place →
        result ≡ list_all (part_absent shape.now cells.now second) (places shape.now) }
{
    let first = cells.first_of(place);
    for part in 0..shape.factor {
        let First::Absent = cells.first(first + part as usize) else {
            return false;
        };
    }
    true
}

/// Whether these are the dirty masks of the blocks of the place.
pub fn are_dirty(shape: &Shape, cells: &Cells, place: usize, masks: &MasksView<'_>) -> bool
    requires factor { cells.now.factor ≡ shape.now.factor }
    requires there { IsPlace cells.now place }
    requires count { length (masks_of masks.now).items ≡ shape.now.factor }
    ensures { (second : ℕ) → place_of cells.now second ≡ Some place →
        result ≡ list_all (part_dirty shape.now cells.now second (masks_of masks.now)) (places shape.now) }
{
    let first = cells.first_of(place);
    for part in 0..shape.factor {
        if masks.get(part as usize).0 != cells.dirty(first + part as usize) {
            return false;
        }
    }
    true
}
