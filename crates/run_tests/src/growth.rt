//! What a run writes where a growth is refused: out of memory, and no other line than the one that is due.
//! A test ends well with the latter, and with `memory_ran_out` where that was told. None takes memory of
//! its own, so in a run with one growth refused it was one of the call.

use lf_verdict::{Refusal, Verdict};
use run_engine::{Counted, run};
use std::io::Cursor;
use std::process::Abort;
use std::test::Fail;
use std::thread::Threads;
use trace_samples::{
    C1_TEXT, CYCLE_OF_TWO_LOGS, EMPTY_TRACE, LOAD_MERGES_BEHIND_STORE, LOAD_MISSES_BOTH_LEVELS,
    TWO_PORTS_TWO_BANKS_TEXT, memory_ran_out,
};

/// The order of a yes; empty for another verdict.
fn order_of(verdict: &Verdict) -> &[u8] {
    match verdict {
        Verdict::Yes { order, .. } => order.as_slice(),
        _ => &[],
    }
}

/// Fails where `run` writes another line, or answers another order.
fn assert_run<T: Abort + AllocGlobal + Threads + Sync + Send + Copy + 'static>(
    rt: &T,
    config: &str,
    bytes: &[u8],
    order: &[u8],
    line: &str,
) -> Result<(), Fail> {
    let mut reader = Counted::new(bytes);
    let mut writer = Counted::new(Cursor::new([0u8; 64]));
    let Ok(verdict) = run(rt, &mut reader, &mut writer, config, 1, 1000) else {
        return Err(Fail::new("a read or a write failed"));
    };
    let is_refused = verdict == Verdict::Refused(Refusal::Memory);
    let line = if is_refused { "refused memory\n" } else { line };
    let page = writer.inner();
    assert_eq!(rt; page.position(), line.len() as u64);
    assert!(rt; page.get_ref().starts_with(line.as_bytes()));
    if is_refused {
        return Err(memory_ran_out());
    }
    assert_eq!(rt; order_of(&verdict), order);
    Ok(())
}

#[test]
fn refused_growth_of_run_on_empty_trace(rt: HostRuntime) -> Result<(), Fail> {
    assert_run(&rt, C1_TEXT, &EMPTY_TRACE, &[], "yes events=0\n")
}

#[test]
fn refused_growth_of_run_on_load_misses_both_levels(rt: HostRuntime) -> Result<(), Fail> {
    let (trace, order) = (LOAD_MISSES_BOTH_LEVELS, [0, 1, 1, 1, 1, 0]);
    assert_run(&rt, C1_TEXT, &trace, &order, "yes events=6\n")
}

#[test]
fn refused_growth_of_run_on_load_merges_behind_store(rt: HostRuntime) -> Result<(), Fail> {
    let (trace, order) = (LOAD_MERGES_BEHIND_STORE, [0, 1, 0, 1, 1, 1, 1, 0, 0]);
    assert_run(&rt, C1_TEXT, &trace, &order, "yes events=9\n")
}

#[test]
fn refused_growth_of_run_on_cycle_of_two_logs(rt: HostRuntime) -> Result<(), Fail> {
    let config = TWO_PORTS_TWO_BANKS_TEXT;
    let line = "no cycle logs=0,1\n";
    assert_run(&rt, config, &CYCLE_OF_TWO_LOGS, &[], line)
}
