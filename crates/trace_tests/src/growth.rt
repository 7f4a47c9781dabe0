//! What a writer and a reader tell where a growth is refused. A test ends well with the answer that is due,
//! and with `memory_ran_out` where that was told and what was left was right.

use crate::reading::{ONE_BANK, encoded};
use lf_codec::{CodecCause, CodecFault, Reader, Told};
use std::test::Fail;
use trace_samples::{C1, LOAD, LOAD_MISSES_BOTH_LEVELS, LOADED, memory_ran_out, records};

#[test]
fn refused_growth_of_encode(rt: HostRuntime) -> Result<(), Fail> {
    let memory = Vec::new(rt.alloc());
    let records = records(rt.alloc(), &C1, &[LOAD, LOADED])?;
    match encoded(&rt, rt.alloc(), &ONE_BANK, &memory, &records) {
        Ok(bytes) => {
            assert!(rt; bytes.as_slice() == LOAD_MISSES_BOTH_LEVELS.as_slice());
            Ok(())
        }
        Err(_) => Err(memory_ran_out()),
    }
}

/// What stands before the record that could not be kept can still be taken, and nothing else.
#[test]
fn refused_growth_of_a_reader(rt: HostRuntime) -> Result<(), Fail> {
    let mut reader = Reader::new(rt.alloc());
    let mut taken = 0u32;
    let starts = [16u64, 36, 48, 64, 84, 104, 124];
    let Err(told) = reader.feed(&LOAD_MISSES_BOTH_LEVELS) else {
        for _ in 0..6 {
            assert!(rt; reader.take().is_some());
        }
        assert!(rt; reader.take().is_none());
        return Ok(());
    };
    for _ in 0..6 {
        if reader.take().is_some() {
            taken = taken.saturating_add(1);
        }
    }
    let cause = CodecCause::NoMemory;
    let offset = starts.get(taken as usize).copied().unwrap_or(0);
    let fault = CodecFault { cause, offset };
    assert_eq!(rt; told, Told::Fault(fault));
    assert_eq!(rt; reader.feed(&[0]), Err(Told::Failed(fault)));
    assert_eq!(rt; reader.finish(), Err(Told::Failed(fault)));
    Err(memory_ran_out())
}
