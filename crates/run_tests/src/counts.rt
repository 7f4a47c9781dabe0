//! Traces whose counts are not those of their records, and traces that do not end.

use crate::streams::{Endless, Pieces};
use crate::told::assert_line;
use crate::traces::load_of_memory;
use lf_verdict::Verdict;
use run_engine::{Counted, run_shape, run_stats};
use std::process::Abort;
use std::test::Fail;
use std::thread::Threads;
use trace_samples::{C1, C1_TEXT, EMPTY_TRACE, LOAD_MISSES_BOTH_LEVELS, record, trace};

#[test]
fn memory_count_off(rt: HostRuntime) -> Result<(), Fail> {
    for (count, line) in [
        (0, "refused format Count at=16\n"),
        (2, "refused format Count at=53\n"),
    ] {
        let mut bytes = load_of_memory(rt.alloc())?;
        if let Some(memory_count) = bytes.get_mut(12) {
            *memory_count = count;
        }
        assert_line(&rt, &C1, &bytes, line)?;
    }
    Ok(())
}

/// Room for all the records that the header promises would be refused.
#[test]
fn memory_count_without_bytes(rt: HostRuntime) -> Result<(), Fail> {
    let mut bytes = Vec::from_slice(rt.alloc(), &EMPTY_TRACE[..12])?;
    bytes.extend_from_slice(&u32::MAX.to_le_bytes())?;
    assert_line(&rt, &C1, &bytes, "refused format Truncated at=16\n")
}

/// Fails where the engine writes another line of what never ends, or makes another number of reads.
fn assert_endless<T: Abort + AllocGlobal + Threads + Sync + Send + Copy + 'static>(
    rt: &T,
    reader: Endless<'_>,
    line: &str,
    reads: u64,
) -> Result<(), Fail> {
    let mut reader = Counted::new(reader);
    let mut writer = Counted::new(Vec::new(rt.alloc()));
    let answer = run_shape(rt, &mut reader, &mut writer, &C1, 1, u32::MAX);
    assert!(rt; answer.is_ok());
    assert_eq!(rt; std::str::from_utf8(writer.inner()), Ok(line));
    assert_eq!(rt; reader.calls(), reads);
    Ok(())
}

/// 1,024 loads, which are given again and again: the record after 2^20 of them is one too many.
#[test]
fn too_many_records(rt: HostRuntime) -> Result<(), Fail> {
    let mut loads = Vec::new(rt.alloc());
    for number in 0..1024 {
        loads.push(record(rt.alloc(), &C1, 0, 0, number, "L 0 8@0")?)?;
    }
    let bytes = trace(rt.alloc(), 1, &C1, &Vec::new(rt.alloc()), &loads)?;
    let (header, records) = bytes.split_at(bytes.len().min(16));
    let (again, _) = records.split_at(records.len().min(1024 * 20));
    let reader = Endless {
        rest: header,
        again,
    };
    assert_endless(&rt, reader, "refused format TooMany at=20971536\n", 1026)
}

/// With ample memory, a trace is read, judged and counted, and its statistics are written. Each other call is shown by
/// its example.
#[test]
fn always_want_of_memory(rt: HostRuntime) -> Result<(), Fail> {
    let mut reader = Counted::new(Pieces::new(&LOAD_MISSES_BOTH_LEVELS, 50));
    let mut writer = Counted::new(Vec::new(rt.alloc()));
    let counted = run_stats(&rt, &mut reader, &mut writer, C1_TEXT, 1000);
    assert!(rt; matches!(counted, Ok(Verdict::Yes { events: 6, .. })));
    Ok(())
}
