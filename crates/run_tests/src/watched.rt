//! Traces that are watched: what is written, and how far is read.

use crate::streams::Pieces;
use lf_rules::Rule;
use lf_verdict::{Broken, Conclusion, Outcome, PartFault, Upon};
use run_engine::{Counted, run_watch};
use std::process::Abort;
use std::test::Fail;
use std::thread::Threads;
use trace_samples::{C1_TEXT, LOAD_MISSES_BOTH_LEVELS};

/// Fails where another line is written for the bytes, in whatever pieces they are read.
fn assert_watched_in_all<T: Abort + AllocGlobal + Threads + Sync + Send + Copy + 'static>(
    rt: &T,
    bytes: &[u8],
    line: &str,
) -> Result<(), Fail> {
    for shorter in 0..bytes.len() {
        let mut reader = Counted::new(Pieces::new(bytes, shorter + 1));
        let mut writer = Counted::new(Vec::new(rt.alloc()));
        let answer = run_watch(rt, &mut reader, &mut writer, C1_TEXT, 100_000);
        assert_eq!(rt; writer.inner().as_slice(), line.as_bytes());
        assert!(rt; answer.is_ok());
    }
    Ok(())
}

/// Fails where another line is written for the bytes, which are read in pieces of so many, or another number of reads
/// is made.
fn assert_watched<T: Abort + AllocGlobal + Threads + Sync + Send + Copy + 'static>(
    rt: &T,
    bytes: &[u8],
    size: usize,
    line: &str,
    reads: u64,
) -> Result<Conclusion, Fail> {
    let mut reader = Counted::new(Pieces::new(bytes, size));
    let mut writer = Counted::new(Vec::new(rt.alloc()));
    let answer = run_watch(rt, &mut reader, &mut writer, C1_TEXT, 100_000);
    assert_eq!(rt; writer.inner().as_slice(), line.as_bytes());
    assert_eq!(rt; reader.calls(), reads);
    answer.map_err(|_| Fail::new("no answer"))
}

#[test]
fn a_legal_trace_is_read_to_its_end(rt: HostRuntime) -> Result<(), Fail> {
    let bytes = &LOAD_MISSES_BOTH_LEVELS;
    let told = assert_watched(&rt, bytes, 1, "yes events=6\n", 133)?;
    assert!(rt; told.broken.is_none());
    assert!(rt; matches!(told.outcome, Outcome::Yes { .. }));
    Ok(())
}

#[test]
fn nothing_is_read_behind_a_broken_record(rt: HostRuntime) -> Result<(), Fail> {
    let mut bytes = LOAD_MISSES_BOTH_LEVELS;
    bytes[116] = 1;
    let line = "broken bank=0 number=5 rule=ReplyData upon log=0 event=1 at=104\n";
    for (size, reads) in [(1usize, 124), (132, 1)] {
        let told = assert_watched(&rt, &bytes, size, line, reads)?;
        let fault = PartFault::Bank {
            bank: 0,
            number: 5,
            rule: Rule::ReplyData,
        };
        let (log, at, offset) = (0, 1, 104);
        let upon = Some(Upon { log, at, offset });
        assert_eq!(rt; told.broken, Some(Broken::Part { fault, upon }));
    }
    Ok(())
}

#[test]
fn what_comes_first_is_told(rt: HostRuntime) -> Result<(), Fail> {
    let mut bytes = [0u8; 133];
    bytes[..132].copy_from_slice(&LOAD_MISSES_BOTH_LEVELS);
    // A byte behind the end of a legal trace.
    assert_watched_in_all(&rt, &bytes, "refused format Trailing at=132\n")?;
    // The reply has a wrong byte.
    bytes[116] = 1;
    let broken = "broken bank=0 number=5 rule=ReplyData upon log=0 event=1 at=104\n";
    assert_watched_in_all(&rt, &bytes, broken)?;
    assert_watched_in_all(&rt, &bytes[..132], broken)?;
    // A record of no kind, behind the reply, and then before it.
    bytes[124] = 0xff;
    assert_watched_in_all(&rt, &bytes, broken)?;
    bytes[36] = 0xff;
    assert_watched_in_all(&rt, &bytes, "refused format Kind at=36\n")?;
    Ok(())
}
