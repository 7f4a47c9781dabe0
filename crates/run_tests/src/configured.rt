//! What is told before a trace is read.

use crate::streams::Pieces;
use run_engine::{Counted, run};
use std::process::Abort;
use std::test::Fail;
use std::thread::Threads;
use trace_samples::C1_TEXT;

/// Fails where the engine reads, or writes another line, for this configuration.
fn assert_unread<T: Abort + AllocGlobal + Threads + Sync + Send + Copy + 'static>(
    rt: &T,
    config: &str,
    workers: u32,
    line: &str,
) -> Result<(), Fail> {
    let mut failing = Pieces::new(&[], 1);
    failing.reads_before_failure = 0;
    let mut reader = Counted::new(failing);
    let mut writer = Counted::new(Vec::new(rt.alloc()));
    let answer = run(rt, &mut reader, &mut writer, config, workers, 1000);
    assert!(rt; answer.is_ok());
    assert_eq!(rt; std::str::from_utf8(writer.inner()), Ok(line));
    assert_eq!(rt; reader.calls(), 0);
    assert_eq!(rt; writer.calls(), 1);
    Ok(())
}

#[test]
fn refused_before_reading(rt: HostRuntime) -> Result<(), Fail> {
    assert_unread(&rt, C1_TEXT, 17, "refused workers 17\n")?;
    assert_unread(&rt, "", 1, "refused config Missing ports\n")
}
