//! Divisions, by powers of two and by other numbers.

ghost use Rattle.std.specs.Prelude.{◌<◌};

use lf_rules::{quotient, remainder, wide_quotient, wide_remainder};
use std::process::Abort;

/// Fails unless a division has this quotient and this remainder.
fn assert_division(rt: &impl Abort, n: u32, by: u32, whole: u32, rest: u32)
    requires { 0 < by }
{
    assert_eq!(rt; quotient(n, by), whole);
    assert_eq!(rt; remainder(n, by), rest);
}

/// Fails unless a division of 64 bits has this quotient and this remainder.
fn assert_wide_division(rt: &impl Abort, n: u64, by: u64, whole: u64, rest: u64)
    requires { 0 < by }
{
    assert_eq!(rt; wide_quotient(n, by), whole);
    assert_eq!(rt; wide_remainder(n, by), rest);
}

#[test]
fn divisions_by_a_power_of_two(rt: HostRuntime) {
    assert_division(&rt, 100, 8, 12, 4);
    assert_wide_division(&rt, u64::MAX, 1 << 63, 1, u64::MAX >> 1);
}

#[test]
fn divisions_by_another_number(rt: HostRuntime) {
    assert_division(&rt, 100, 7, 14, 2);
    assert_wide_division(&rt, 1 << 40, 1000, 1_099_511_627, 776);
}
