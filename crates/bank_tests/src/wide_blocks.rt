//! Worked examples whose second-level blocks have two blocks. Each has further answers, which the program gives of the
//! trace of its name in `examples/`.

use crate::judged::assert_judged;
use lf_rules::{Outcome, Rule};
use std::test::Fail;
use trace_samples::C2;

/// Two loads of the two blocks of one second-level block, up to the primary miss of level two.
const TWO_BLOCKS: &str = "L 0 8@0, P 0 0, L 1 8@8, P 1 1, SP 0 0";

/// The second joins the first, and both are filled and replied to.
const MERGED: &str = "SM 1 0, F2 0, F1 0, F1 1, R 0=0000000000000000, R 1=0000000000000000";

#[test]
fn second_level_merge_by_replay(rt: HostRuntime) -> Result<(), Fail> {
    assert_judged(&rt, &C2, &[TWO_BLOCKS, MERGED], Outcome::Passed)
}

#[test]
fn second_level_merge_refused_by_replay(rt: HostRuntime) -> Result<(), Fail> {
    let in_flight = Outcome::Broken(5, Rule::PrimaryInFlight);
    assert_judged(&rt, &C2, &[TWO_BLOCKS, "SP 1 0"], in_flight)
}

#[test]
fn inclusion_of_every_sub_block_by_replay(rt: HostRuntime) -> Result<(), Fail> {
    let one = Outcome::Broken(12, Rule::Inclusion);
    let out = "E1 0 00, E2 0 00,00";
    assert_judged(&rt, &C2, &[TWO_BLOCKS, MERGED, out], one)
}

#[test]
fn sub_block_masks_by_replay(rt: HostRuntime) -> Result<(), Fail> {
    let events = "S 0 1@8=aa, P 0 0, SP 1 0, F2 0, F1 1, E1 1 01=aa, E2 0 00,01=aa";
    assert_judged(&rt, &C2, &[events], Outcome::Passed)
}
