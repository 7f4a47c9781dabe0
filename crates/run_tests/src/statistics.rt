//! The statistics that are written, and what is written in their place.

use crate::streams::Pieces;
use run_engine::{Counted, run_stats};
use std::process::Abort;
use std::test::Fail;
use std::thread::Threads;
use trace_samples::{C1_TEXT, EMPTY_TRACE, LOAD_MISSES_BOTH_LEVELS};

/// Fails where another text is written of these bytes.
fn assert_written<T: Abort + AllocGlobal + Threads + Sync + Send + Copy + 'static>(
    rt: &T,
    bytes: &[u8],
    text: &str,
) -> Result<(), Fail> {
    let mut reader = Counted::new(Pieces::new(bytes, 50));
    let mut writer = Counted::new(Vec::new(rt.alloc()));
    let answer = run_stats(rt, &mut reader, &mut writer, C1_TEXT, 1000);
    assert!(rt; answer.is_ok());
    assert_eq!(rt; std::str::from_utf8(writer.inner()), Ok(text));
    Ok(())
}

#[test]
fn statistics_of_empty_trace(rt: HostRuntime) -> Result<(), Fail> {
    let text = "bank=0 hits=0 primary=0 merges=0 stalls=0 peak=0\nport=0 unanswered=0\n";
    assert_written(&rt, &EMPTY_TRACE, text)
}

#[test]
fn statistics_of_reply_with_a_wrong_byte(rt: HostRuntime) -> Result<(), Fail> {
    let mut bytes = LOAD_MISSES_BOTH_LEVELS;
    bytes[116] = 1;
    assert_written(&rt, &bytes, "no bank=0 number=5 rule=ReplyData\n")
}
