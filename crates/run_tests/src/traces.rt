//! A trace that more than one test has.

use std::alloc::Global;
use std::test::Fail;
use trace_samples::{C1, memory, records, trace};

/// A load of two bytes of a block that the memory has.
pub fn load_of_memory(alloc: Global) -> Result<Vec<u8>, Fail> {
    let fills = "F2 0=1122334455667788, F1 0=1122334455667788";
    let load = records(alloc, &C1, &["L 0 2@2, P 0 0, SP 0 0", fills, "R 0=3344"])?;
    let memory = memory(alloc, &[(0, "1122334455667788")])?;
    Ok(trace(alloc, 1, &C1, &memory, &load)?)
}
