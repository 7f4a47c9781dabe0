//! Traces that are asked to be complete: each request has a reply at the end, or the first without one is told.

use crate::streams::Pieces;
use lf_verdict::Outcome;
use run_engine::{Counted, run_complete};
use std::process::Abort;
use std::test::Fail;
use std::thread::Threads;
use trace_samples::{C1, C1_TEXT, LOAD, LOAD_MISSES_BOTH_LEVELS, LOADED, trace_of};

/// Fails where another line is written of these bytes, or another request is told to have no reply.
fn assert_complete<T: Abort + AllocGlobal + Threads + Sync + Send + Copy + 'static>(
    rt: &T,
    config: &str,
    bytes: &[u8],
    line: &str,
    waits: Option<(u8, u8)>,
) -> Result<(), Fail> {
    let mut reader = Counted::new(Pieces::new(bytes, 50));
    let mut writer = Counted::new(Vec::new(rt.alloc()));
    let answer = run_complete(rt, &mut reader, &mut writer, config, 1000);
    assert_eq!(rt; std::str::from_utf8(writer.inner()), Ok(line));
    let Ok(told) = answer else {
        return Err(Fail::new("no answer"));
    };
    assert_eq!(rt; told.incomplete.map(|found| (found.port, found.tag)), waits);
    assert!(rt; waits.is_none() || matches!(told.outcome, Outcome::Yes { .. }));
    Ok(())
}

#[test]
fn each_request_has_a_reply(rt: HostRuntime) -> Result<(), Fail> {
    let line = "yes events=6\n";
    assert_complete(&rt, C1_TEXT, &LOAD_MISSES_BOTH_LEVELS, line, None)
}

#[test]
fn the_lowest_tag_without_a_reply_is_told(rt: HostRuntime) -> Result<(), Fail> {
    let bytes = trace_of(rt.alloc(), &C1, &[LOAD, LOADED, "L 2 8@0, L 1 8@0"])?;
    let line = "no incomplete port=0 tag=1\n";
    assert_complete(&rt, C1_TEXT, &bytes, line, Some((0, 1)))
}
