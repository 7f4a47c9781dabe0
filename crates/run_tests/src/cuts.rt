//! Traces that end early, after each of their bytes.

use crate::traces::load_of_memory;
use lf_codec::{CodecCause, CodecFault};
use lf_verdict::{Refusal, Session, Verdict, check};
use std::process::Abort;
use std::sync::Wait;
use std::test::Fail;
use std::thread::Threads;
use trace_samples::{C1, C1_TEXT, STORE, trace_of};

/// Where the header or the record begins that so many bytes end in.
fn begun_at(starts: &[usize], n: usize) -> usize {
    let begun = starts.iter().copied().filter(|start| *start <= n);
    begun.last().unwrap_or(0)
}

/// Fails where the bytes, cut anywhere, get another answer than `Truncated` at the record in which they
/// end, by `check` or by a session.
fn assert_cuts<T: Threads + Wait + Sync + Abort + AllocGlobal>(
    rt: &T,
    bytes: &[u8],
    starts: &[usize],
) -> Result<(), Fail> {
    for n in 0..bytes.len() {
        let front = &bytes[..n];
        let truncated = Verdict::Refused(Refusal::Format(CodecFault {
            cause: CodecCause::Truncated,
            offset: begun_at(starts, n) as u64,
        }));
        let checked = check(rt, C1_TEXT, &[front], 1);
        assert_eq!(rt; checked, truncated, "cut to {n}");
        let Ok(mut session) = Session::new(rt.alloc(), C1_TEXT) else {
            return Err(Fail::new("no session"));
        };
        assert!(rt; session.feed(front).is_ok(), "cut to {n}");
        assert_eq!(rt; session.finish(), truncated, "cut to {n}");
    }
    Ok(())
}

#[test]
fn load_merges_behind_store_cut(rt: HostRuntime) -> Result<(), Fail> {
    let merged = "S 0 1@0=aa, P 0 0, L 1 1@0, M 1 0, SP 0 0, F2 0, F1 0, R 0, R 1=aa";
    let bytes = trace_of(rt.alloc(), &C1, &[merged])?;
    assert_eq!(rt; bytes.len(), 170);
    let starts = [16, 37, 49, 69, 81, 97, 117, 137, 149, 162];
    assert_cuts(&rt, &bytes, &starts)
}

#[test]
fn eviction_mask_and_data_cut(rt: HostRuntime) -> Result<(), Fail> {
    let bytes = trace_of(rt.alloc(), &C1, &[STORE, "E1 0 3=aabb"])?;
    assert_eq!(rt; bytes.len(), 136);
    let starts = [16, 38, 50, 66, 86, 106, 128];
    assert_cuts(&rt, &bytes, &starts)
}

/// The memory record is whole where its bytes are.
#[test]
fn initial_memory_cut(rt: HostRuntime) -> Result<(), Fail> {
    let bytes = load_of_memory(rt.alloc())?;
    assert_eq!(rt; bytes.len(), 138);
    let starts = [16, 28, 48, 60, 76, 96, 116, 130];
    assert_cuts(&rt, &bytes, &starts)
}
