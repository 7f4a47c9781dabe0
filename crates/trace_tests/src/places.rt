//! Bytes at their places.

use std::test::Fail;
use trace_early::Chunks;
use trace_samples::memory_ran_out;

/// Two records, of which the first is let go, and a third one behind them.
#[test]
fn each_place_has_its_bytes(rt: HostRuntime) -> Result<(), Fail> {
    let mut chunks = Chunks::new(rt.alloc());
    let Ok(first) = chunks.put(b"one") else {
        return Err(memory_ran_out());
    };
    let Ok(second) = chunks.put(b"") else {
        return Err(memory_ran_out());
    };
    chunks.drop(first);
    let Ok(third) = chunks.put(b"three") else {
        return Err(memory_ran_out());
    };
    assert_eq!(rt; chunks.get(second), b"".as_slice());
    assert_eq!(rt; chunks.get(third), b"three".as_slice());
    Ok(())
}
