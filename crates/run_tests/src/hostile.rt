//! Readers that are interrupted, run on or fail, and writers that fail.

use crate::streams::{Pieces, Sink};
use run_engine::{Counted, RunFault, run};
use std::io::ErrorKind;
use std::process::Abort;
use std::test::Fail;
use std::thread::Threads;
use trace_samples::{C1_TEXT, LOAD_MISSES_BOTH_LEVELS};

const YES: &str = "yes events=6\n";

const NOT_READ: &str = "refused read trace\n";

/// Fails where the engine, with so many turns, comes to another fault or writes another line.
fn assert_run<T: Abort + AllocGlobal + Threads + Sync + Send + Copy + 'static>(
    rt: &T,
    reader: Pieces<'_>,
    turns: u32,
    fault: Option<RunFault>,
    line: &str,
) -> Result<(), Fail> {
    let mut reader = Counted::new(reader);
    let mut writer = Counted::new(Vec::new(rt.alloc()));
    let answer = run(rt, &mut reader, &mut writer, C1_TEXT, 1, turns);
    assert_eq!(rt; answer.err(), fault);
    assert_eq!(rt; writer.inner().as_slice(), line.as_bytes());
    Ok(())
}

#[test]
fn interrupted_reads(rt: HostRuntime) -> Result<(), Fail> {
    let turns_run_out = Some(RunFault::Turns);
    for (turns, fault, line) in [(2000, None, YES), (1000, turns_run_out, NOT_READ)] {
        let mut reader = Pieces::new(&LOAD_MISSES_BOTH_LEVELS, 132);
        reader.interruptions = 1000;
        assert_run(&rt, reader, turns, fault, line)?;
    }
    Ok(())
}

#[test]
fn turns_run_out(rt: HostRuntime) -> Result<(), Fail> {
    assert_run(
        &rt,
        Pieces::new(&LOAD_MISSES_BOTH_LEVELS, 132),
        2,
        None,
        YES,
    )?;
    for turns in 0..2 {
        let reader = Pieces::new(&LOAD_MISSES_BOTH_LEVELS, 132);
        assert_run(&rt, reader, turns, Some(RunFault::Turns), NOT_READ)?;
    }
    Ok(())
}

#[test]
fn read_fails_midway(rt: HostRuntime) -> Result<(), Fail> {
    for reads_before_failure in 0..133 {
        let mut reader = Pieces::new(&LOAD_MISSES_BOTH_LEVELS, 1);
        reader.reads_before_failure = reads_before_failure;
        assert_run(&rt, reader, 1000, Some(RunFault::Read), NOT_READ)?;
    }
    Ok(())
}

#[test]
fn write_fails(rt: HostRuntime) -> Result<(), Fail> {
    for (room, failure, written) in [(3, Some(ErrorKind::Other), "yes"), (0, None, "")] {
        let mut reader = Counted::new(Pieces::new(&LOAD_MISSES_BOTH_LEVELS, 132));
        let mut writer = Counted::new(Sink {
            taken: Vec::new(rt.alloc()),
            room,
            failure,
        });
        let answer = run(&rt, &mut reader, &mut writer, C1_TEXT, 1, 1000);
        assert_eq!(rt; answer.err(), Some(RunFault::Write));
        assert_eq!(rt; writer.inner().taken.as_slice(), written.as_bytes());
        assert_eq!(rt; writer.failures(), 1);
    }
    Ok(())
}
