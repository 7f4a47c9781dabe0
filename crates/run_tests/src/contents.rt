//! A trace of one record, taken apart.

ghost use Rattle.std.specs.Prelude.{IsTrue};
ghost use Rattle.lf_codec.specs.Laws.{IsSomeTrace};

use explain_why::{Packing, Parts, Trace, packed_in, parts_in, records_in, trace_in};
use lf_codec::{Header, Reader};
use std::alloc::Global;
use std::test::Fail;

/// A load that hits nothing yet: the header, one memory record, one event record and the end.
const TRACE: [u8; 56] = [
    0x4c, 0x46, 0x54, 0x53, 1, 0, 1, 1, 8, 0, 0, 0, 1, 0, 0, 0, 3, 0, 0, 0, 1, 2, 3, 4, 5, 6, 7, 8,
    1, 0, 0, 0, 0, 0, 0, 0, 0, 0, 8, 0, 0, 0, 0, 0, 0, 0, 0, 0, 0, 0, 0, 0, 1, 0, 0, 0,
];

/// Whether a reader finds a trace in the bytes.
fn is_trace(alloc: Global, bytes: &[u8]) -> bool
    ensures { IsTrue result → IsSomeTrace bytes.now }
{
    let mut reader = Reader::new(alloc);
    let Ok(()) = reader.feed(bytes) else {
        return false;
    };
    match reader.finish() {
        Ok(_) => true,
        Err(_) => false,
    }
}

#[test]
fn parts_of_a_trace(rt: HostRuntime) -> Result<(), Fail> {
    let Parts { memory, records } = parts_in(rt.alloc(), &TRACE)?;
    assert_eq!(rt; memory.len(), 1);
    assert_eq!(rt; records.len(), 1);
    let begun = records_in(rt.alloc(), &TRACE[..28])?;
    assert_eq!(rt; begun.len(), 0);
    Ok(())
}

#[test]
fn records_before_a_fault(rt: HostRuntime) -> Result<(), Fail> {
    let mut bytes = TRACE;
    bytes[52] = 9;
    let records = records_in(rt.alloc(), &bytes)?;
    assert_eq!(rt; records.len(), 1);
    Ok(())
}

#[test]
fn trace_with_its_header(rt: HostRuntime) -> Result<(), Fail> {
    assert!(rt; is_trace(rt.alloc(), &TRACE));
    let Trace {
        header,
        memory,
        records,
    } = trace_in(rt.alloc(), &TRACE)?;
    let Header { ports, banks, .. } = header;
    assert_eq!(rt; (ports, banks), (1, 1));
    assert_eq!(rt; memory.len(), 1);
    assert_eq!(rt; records.len(), 1);
    Ok(())
}

#[test]
fn trace_that_is_packed(rt: HostRuntime) -> Result<(), Fail> {
    assert!(rt; is_trace(rt.alloc(), &TRACE));
    let Packing {
        memory,
        records,
        start,
    } = packed_in(rt.alloc(), &TRACE)?;
    assert_eq!(rt; memory.len(), 1);
    assert_eq!(rt; records.len(), 1);
    assert_eq!(rt; start, 28);
    Ok(())
}
