//! Worked examples of one bank, whose blocks are of one size at both levels. Each has further answers, which the
//! program gives of the trace of its name in `examples/`.

use crate::judged::{assert_judged, assert_judged_on};
use lf_rules::{Outcome, Rule};
use std::test::Fail;
use trace_samples::{
    C1, IMPLICIT, INVERTED, INVERTED_BELOW, LOAD, LOADED, STORE, TWO_REGISTERS, memory,
};

#[test]
fn load_misses_both_levels_by_replay(rt: HostRuntime) -> Result<(), Fail> {
    assert_judged(&rt, &C1, &[LOAD, LOADED], Outcome::Passed)
}

#[test]
fn load_merges_behind_store_by_replay(rt: HostRuntime) -> Result<(), Fail> {
    let events = "S 0 1@0=aa, P 0 0, L 1 1@0, M 1 0, SP 0 0, F2 0, F1 0, R 0, R 1=aa";
    assert_judged(&rt, &C1, &[events], Outcome::Passed)
}

#[test]
fn store_merges_behind_load_by_replay(rt: HostRuntime) -> Result<(), Fail> {
    let events = "L 0 1@0, P 0 0, S 1 1@0=aa, M 1 0, SP 0 0, F2 0, F1 0, R 0=aa, R 1";
    let wrong = Outcome::Broken(7, Rule::ReplyData);
    assert_judged(&rt, &C1, &[events], wrong)
}

#[test]
fn implicit_field_in_use_by_replay(rt: HostRuntime) -> Result<(), Fail> {
    let full = Outcome::Broken(3, Rule::MergeFull);
    assert_judged(&rt, &IMPLICIT, &["L 0 4@0, P 0 0, L 1 4@4, M 1 0"], full)
}

#[test]
fn explicit_entries_full_by_replay(rt: HostRuntime) -> Result<(), Fail> {
    let events = "L 0 8@0, P 0 0, L 1 8@0, M 1 0, L 2 8@0, X 2";
    assert_judged(&rt, &C1, &[events], Outcome::Passed)
}

/// No stored trace shows the first answer of this one.
#[test]
fn inverted_two_registers_by_replay(rt: HostRuntime) -> Result<(), Fail> {
    let loads = "L 0 8@0, P 0 0, L 1 8@0";
    let in_flight = Outcome::Broken(3, Rule::PrimaryInFlight);
    assert_judged(&rt, &TWO_REGISTERS, &[loads, "P 1 1"], in_flight)?;
    assert_judged(&rt, &INVERTED, &[loads, "M 1 1"], Outcome::Passed)
}

/// No stored trace shows this one.
#[test]
fn second_level_inverted_by_replay(rt: HostRuntime) -> Result<(), Fail> {
    let load = "L 0 8@0, P 0 1";
    assert_judged(&rt, &INVERTED_BELOW, &[load, "SP 0 1"], Outcome::Passed)?;
    let wrong = Outcome::Broken(2, Rule::WrongRegister);
    assert_judged(&rt, &INVERTED_BELOW, &[load, "SP 0 0"], wrong)
}

#[test]
fn inclusion_by_replay(rt: HostRuntime) -> Result<(), Fail> {
    let under_line = Outcome::Broken(5, Rule::Inclusion);
    assert_judged(&rt, &C1, &[LOAD, "E2 0 00"], under_line)
}

#[test]
fn eviction_mask_and_data_by_replay(rt: HostRuntime) -> Result<(), Fail> {
    let wrong = Outcome::Broken(5, Rule::EvictData);
    assert_judged(&rt, &C1, &[STORE, "E1 0 03=aabc"], wrong)
}

#[test]
fn written_back_and_fetched_again_by_replay(rt: HostRuntime) -> Result<(), Fail> {
    let out = "E1 0 03=aabb, E2 0 03=aabb, L 1 8@0, P 1 0, SP 0 0";
    let fetched = "F2 0=aabb000000000000";
    assert_judged(&rt, &C1, &[STORE, out, fetched], Outcome::Passed)
}

#[test]
fn set_full_by_replay(rt: HostRuntime) -> Result<(), Fail> {
    let second = "L 0 8@8, P 0 0, SP 1 0, F2 1, F1 1";
    let full = Outcome::Broken(10, Rule::SetFull);
    assert_judged(&rt, &C1, &[LOAD, LOADED, second], full)
}

/// No stored trace shows this one.
#[test]
fn second_level_stall_by_replay(rt: HostRuntime) -> Result<(), Fail> {
    let misses = "L 0 8@0, P 0 0, L 1 8@8, P 1 1";
    let stalled = [misses, "SP 0 0, SS 1"];
    assert_judged(&rt, &TWO_REGISTERS, &stalled, Outcome::Passed)?;
    let needless = Outcome::Broken(4, Rule::NeedlessStall);
    assert_judged(&rt, &TWO_REGISTERS, &[misses, "SS 1"], needless)
}

#[test]
fn initial_memory_by_replay(rt: HostRuntime) -> Result<(), Fail> {
    let memory = memory(rt.alloc(), &[(0, "1122334455667788")])?;
    let misses = "L 0 2@2, P 0 0, SP 0 0";
    let filled = "F2 0=1122334455667788, F1 0=1122334455667788, R 0=3344";
    assert_judged_on(&rt, &C1, &memory, &[misses, filled], Outcome::Passed)
}
