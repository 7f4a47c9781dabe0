//! The lines of level two that are pinned: while a register of level one holds a block of it, a line stays.

ghost use Rattle.std.specs.Prelude.{◌≡◌, ℕ, ◌<◌, ◌^◌, Bool, length};
ghost use Rattle.count_coverage.specs.Standing.{is_for, pins_another, pinned};
ghost use Rattle.count_coverage.specs.Kept.{is_in};

use crate::request::Request;
use std::collections::HashSet;

/// Whether one of these is for the second-level block.
fn is_for(requests: &[Request], second: u64) -> bool
    ensures { result ≡ is_for second requests.now }
{
    requests.iter().any(|request| request.second == second)
}

/// Whether the request pins a line of the set that none of those before it pins.
fn pins_another(before: &[Request], lines: &HashSet<u64>, set: u32, request: Request) -> bool
    ensures { (has : ℕ → Bool) → ((second : ℕ) → is_in lines.now second ≡ has second)
        → result ≡ pins_another set has before.now request }
{
    request.set2 == set && lines.contains(&request.second) && !is_for(before, request.second)
}

/// How many lines of the set these requests pin.
pub(crate) fn pinned(waiting: &[Request], lines: &HashSet<u64>, set: u32) -> u32
    requires few { length waiting.now < 2 ^ 29 }
    ensures { (has : ℕ → Bool) → ((second : ℕ) → is_in lines.now second ≡ has second)
        → result ≡ pinned set has waiting.now (length waiting.now) }
{
    let mut count = 0;
    for (i, request) in waiting.iter().enumerate() {
        if pins_another(&waiting[..i], lines, set, *request) {
            count += 1;
        }
    }
    count
}
