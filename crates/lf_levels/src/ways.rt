//! The ways of the sets, a row of them for each set, one row after another.

ghost use Rattle.std.specs.Prelude.{◌≡◌, ◌+◌, ◌≤◌, length, replicate, None, IfOk};
ghost use Rattle.std.specs.List.{position};
ghost use Rattle.lf_levels.specs.Rows.{is_free, is_key, is_same, FindsWay};

use crate::way_key::WayKey;
use lf_rules::NoMemory;
use std::alloc::Global;

/// The keys of so many ways, all free.
pub fn free_keys(alloc: Global, count: usize) -> Result<Vec<WayKey>, NoMemory>
    ensures { IfOk result (λ keys. keys.items ≡ replicate count None) }
{
    Ok(vec![in alloc; WayKey::free(); count]?)
}

/// Where among the ways the first of this key is. Each way is looked at, since a search that ends at the first has a
/// branch that the processor often predicts wrongly.
fn place_of(keys: &[WayKey], wanted: WayKey) -> Option<usize>
    ensures { result ≡ position (is_same wanted) keys.now }
{
    let mut place = keys.len();
    let mut left = keys.len();
    while left > 0 {
        left -= 1;
        if keys[left].is(wanted) {
            place = left;
        }
    }
    if place == keys.len() {
        return None;
    }
    Some(place)
}

/// Which of the row's ways has the line of the block.
pub fn find_line(keys: &[WayKey], row: usize, ways: usize, block: u32) -> Option<usize>
    requires { row + ways ≤ length keys.now }
    ensures { FindsWay (is_key block) keys.now row ways result }
{
    match place_of(&keys[row..row + ways], WayKey::of(block)) {
        Some(way) => Some(row + way),
        None => None,
    }
}

/// Which of the row's ways is free.
pub fn find_free(keys: &[WayKey], row: usize, ways: usize) -> Option<usize>
    requires { row + ways ≤ length keys.now }
    ensures { FindsWay is_free keys.now row ways result }
{
    match place_of(&keys[row..row + ways], WayKey::free()) {
        Some(way) => Some(row + way),
        None => None,
    }
}
