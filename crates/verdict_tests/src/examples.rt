//! The worked examples, whose answers come from the description of the rules.

use crate::verdicts::{assert_told, assert_verdict, port_fault, yes};
use lf_rules::{Knot, Ring, Rule};
use lf_verdict::{Fault, NoGate, Refusal, Verdict, check_shape};
use std::process::Abort;
use std::sync::Wait;
use std::test::Fail;
use std::thread::Threads;
use trace_samples::{
    C1, CYCLE_OF_TWO_LOGS, EMPTY_TRACE, FOUR_BANKS, LOAD, LOAD_MISSES_BOTH_LEVELS, LOADED,
    LOWEST_BANK, TWO_PORTS_TWO_BANKS, records_at, trace,
};

#[test]
fn empty_trace(rt: HostRuntime) -> Result<(), Fail> {
    assert_verdict(&rt, &C1, &EMPTY_TRACE, &yes(rt.alloc(), &[])?)
}

#[test]
fn load_misses_both_levels(rt: HostRuntime) -> Result<(), Fail> {
    let bytes: &[u8] = &LOAD_MISSES_BOTH_LEVELS;
    let legal = yes(rt.alloc(), &[0, 1, 1, 1, 1, 0])?;
    assert_verdict(&rt, &C1, bytes, &legal)?;
    for workers in [1u32, 2] {
        let pieces: [&[u8]; 3] = [&bytes[..1], &[], &bytes[1..]];
        let cut = check_shape(&rt, &C1, &pieces, workers, &NoGate);
        assert_eq!(rt; cut, legal);
    }
    Ok(())
}

#[test]
fn reply_with_a_wrong_byte(rt: HostRuntime) -> Result<(), Fail> {
    let mut bytes = LOAD_MISSES_BOTH_LEVELS;
    bytes[116] = 1;
    let fault = Verdict::No(Fault::Bank {
        bank: 0,
        number: 5,
        rule: Rule::ReplyData,
    });
    assert_verdict(&rt, &C1, &bytes, &fault)
}

/// Fails where another verdict is told of records of `C1` that stand so: log, bank, number, event.
fn assert_placed<T: Abort + AllocGlobal + Threads + Wait + Sync>(
    rt: &T,
    rows: &[(u8, u8, u32, &str)],
    verdict: &Verdict,
) -> Result<(), Fail> {
    let records = records_at(rt.alloc(), &C1, rows)?;
    let bytes = trace(rt.alloc(), 1, &C1, &Vec::new(rt.alloc()), &records)?;
    assert_verdict(rt, &C1, &bytes, verdict)
}

#[test]
fn gaps_and_doubles(rt: HostRuntime) -> Result<(), Fail> {
    for ([a, b, c], fault) in [
        ([0, 1, 3], Fault::Missing { bank: 0, k: 2 }),
        ([0, 1, 1], Fault::Double { bank: 0, k: 1 }),
        ([0, 2, 2], Fault::Missing { bank: 0, k: 1 }),
    ] {
        let rows = [
            (0, 0, a, "L 0 8@0"),
            (0, 0, b, "L 1 8@0"),
            (0, 0, c, "L 2 8@0"),
        ];
        assert_placed(&rt, &rows, &Verdict::No(fault))?;
    }
    Ok(())
}

#[test]
fn tags_of_a_port(rt: HostRuntime) -> Result<(), Fail> {
    let busy = port_fault(1, Rule::TagBusy);
    assert_told(&rt, &C1, &["L 0 8@0, L 0 8@0"], &busy)?;
    let range = port_fault(0, Rule::TagRange);
    assert_told(&rt, &C1, &["L 4 8@0"], &range)
}

#[test]
fn tags_of_a_port_after_a_reply(rt: HostRuntime) -> Result<(), Fail> {
    let legal = yes(rt.alloc(), &[0, 1, 1, 1, 1, 0, 0])?;
    assert_told(&rt, &C1, &[LOAD, LOADED, "L 0 8@0"], &legal)?;
    let twice = port_fault(2, Rule::NotOutstanding);
    assert_told(&rt, &C1, &[LOAD, LOADED, LOADED], &twice)
}

#[test]
fn lowest_bank_any_workers(rt: HostRuntime) -> Result<(), Fail> {
    let lowest = Verdict::No(Fault::Bank {
        bank: 1,
        number: 0,
        rule: Rule::NotHead,
    });
    assert_verdict(&rt, &FOUR_BANKS, &LOWEST_BANK, &lowest)?;
    let bytes: &[u8] = &LOWEST_BANK;
    let verdict = check_shape(&rt, &FOUR_BANKS, &[bytes], 16, &NoGate);
    assert_eq!(rt; verdict, lowest);
    for workers in [0, 17] {
        let verdict = check_shape(&rt, &FOUR_BANKS, &[bytes], workers, &NoGate);
        assert_eq!(rt; verdict, Verdict::Refused(Refusal::Workers(workers)));
    }
    Ok(())
}

/// A no for logs that wait for one another, each at its first event.
pub fn cycle_of(logs: &[u8]) -> Verdict {
    let mut ring = Ring::new();
    for log in logs {
        let _ = ring.try_push(Knot { log: *log, at: 0 });
    }
    Verdict::No(Fault::Cycle(ring))
}

#[test]
fn cycle_of_two_logs(rt: HostRuntime) -> Result<(), Fail> {
    let ring = cycle_of(&[0, 1]);
    assert_verdict(&rt, &TWO_PORTS_TWO_BANKS, &CYCLE_OF_TWO_LOGS, &ring)
}

#[test]
fn cycle_of_one_log(rt: HostRuntime) -> Result<(), Fail> {
    let rows = [(0, 0, 1, "L 0 8@0"), (0, 0, 0, "L 1 8@0")];
    assert_placed(&rt, &rows, &cycle_of(&[0]))
}
