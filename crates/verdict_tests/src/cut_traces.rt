//! Traces that are cut, continued or mixed, and a load's trace with another byte.

use crate::verdicts::{assert_verdict, format_fault, yes};
use lf_codec::CodecCause;
use lf_verdict::check;
use std::process::Abort;
use std::sync::Wait;
use std::test::Fail;
use std::thread::Threads;
use trace_samples::{C1, C1_TEXT, LOAD_MISSES_BOTH_LEVELS};

/// Fails where the trace of one load, cut anywhere, is refused otherwise than as cut in the header or in
/// the record in which it ends.
fn assert_truncated<T: Abort + AllocGlobal + Threads + Wait + Sync>(rt: &T) -> Result<(), Fail> {
    // Where a header or a record begins and ends.
    for (start, end) in [
        (0, 16),
        (16, 36),
        (36, 48),
        (48, 64),
        (64, 84),
        (84, 104),
        (104, 124),
        (124, 132),
    ] {
        let fault = format_fault(CodecCause::Truncated, start);
        for n in start..end {
            let (front, _) = LOAD_MISSES_BOTH_LEVELS.split_at((n as usize).min(132));
            assert_verdict(rt, &C1, front, &fault)?;
        }
    }
    Ok(())
}

#[test]
fn truncated_and_trailing(rt: HostRuntime) -> Result<(), Fail> {
    assert_truncated(&rt)?;
    let mut bytes = Vec::from_slice(rt.alloc(), &LOAD_MISSES_BOTH_LEVELS)?;
    bytes.push(0)?;
    let trailing = format_fault(CodecCause::Trailing, 132);
    assert_verdict(&rt, &C1, &bytes, &trailing)?;
    let mut bytes = LOAD_MISSES_BOTH_LEVELS;
    bytes[27] = 1;
    let reserved = format_fault(CodecCause::Reserved, 16);
    assert_verdict(&rt, &C1, &bytes, &reserved)
}

#[test]
fn mixed_logs(rt: HostRuntime) -> Result<(), Fail> {
    let load = &LOAD_MISSES_BOTH_LEVELS;
    let mut mixed = Vec::from_slice(rt.alloc(), &load[..16])?;
    mixed.extend_from_slice(&load[36..104])?;
    mixed.extend_from_slice(&load[16..36])?;
    mixed.extend_from_slice(&load[104..])?;
    let legal = yes(rt.alloc(), &[0, 1, 1, 1, 1, 0])?;
    assert_eq!(rt; check(&rt, C1_TEXT, &[mixed.as_slice()], 1), legal);
    assert_verdict(&rt, &C1, &mixed, &legal)
}
