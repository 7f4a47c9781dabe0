//! Whether logs wait for one another in a ring.

ghost use Rattle.std.specs.Prelude.{◌≡◌, ◌<◌, ◌+◌, ◌%◌, ◌↔◌, ◌==◌, ◌&&◌, IsTrue, drop, nat_lt};
ghost use Rattle.std.specs.List.{list_any};
ghost use Rattle.lf_rules.specs.Order.{log_at};
ghost use Rattle.lf_rules.specs.Ring.{IsRing, IsWait};
ghost use Rattle.lf_join.specs.Join.{skeleton_lists};

use lf_rules::{Knot, NO_BANK, Ring, Skeleton};

/// The entries of a log, none where there is no such log.
pub(crate) fn entries(skeletons: &[Skeleton], log: usize) -> &[(u8, u32)]
    ensures { result.now ≡ log_at (skeleton_lists skeletons.now) log }
{
    match skeletons.get(log) {
        Some(skeleton) => skeleton,
        None => &[],
    }
}

/// Whether an entry from this place on names the bank with a smaller number.
fn has_smaller(entries: &[(u8, u32)], from: usize, bank: u8, number: u32) -> bool
    ensures { result ≡ list_any (λ entry. (entry.0 == bank) && nat_lt entry.1 number) (drop from entries.now) }
{
    entries
        .iter()
        .skip(from)
        .any(|entry| entry.0 == bank && entry.1 < number)
}

/// Whether the knot's entry waits for an entry behind the next knot's place. One that names no bank
/// waits for none.
fn waits(skeletons: &[Skeleton], knot: Knot, next: Knot) -> bool
    ensures { IsTrue result ↔ IsWait (skeleton_lists skeletons.now) knot next }
{
    match entries(skeletons, knot.log as usize).get(knot.at as usize) {
        Some(&(bank, number)) => {
            let other = entries(skeletons, next.log as usize);
            bank < NO_BANK && has_smaller(other, next.at as usize + 1, bank, number)
        }
        None => false,
    }
}

/// Whether the logs wait for one another: each knot's entry names a bank and is behind one of that
/// bank with a smaller number, which stands after the next knot's place in the next knot's log, and
/// the last knot waits for the first. A ring is not empty.
pub fn check_cycle(skeletons: &[Skeleton], ring: &Ring) -> bool
    ensures { IsTrue result ↔ IsRing (skeleton_lists skeletons.now) ring.now.items }
{
    let len = ring.len();
    if len == 0 {
        return false;
    }
    for j in 0..len {
        if !waits(skeletons, ring[j], ring[(j + 1) % len]) {
            return false;
        }
    }
    true
}
