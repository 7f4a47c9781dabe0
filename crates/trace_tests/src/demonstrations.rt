//! The trace of a demonstration, and that it runs to its end.

use lf_codec::{Header, Reader};
use recorder_demo::{DemoFault, demo_trace};
use trace_samples::C1;

#[test]
fn no_turns(rt: HostRuntime) {
    assert_eq!(rt; demo_trace(&rt, &C1, 0).err(), Some(DemoFault::Turns));
}

/// That a run ends, that its trace is read again, and that the bank has events beside the port's 129.
#[test]
fn demo_on_c1(rt: HostRuntime) {
    let demo = demo_trace(&rt, &C1, 10_000_000);
    let (count, bytes) = demo.ok().expect(&rt, "each thread has an event in time");
    let mut reader = Reader::new(rt.alloc());
    assert!(rt; reader.feed(bytes.as_slice()).is_ok());
    let header = Header {
        version: 3,
        ports: 1,
        banks: 1,
        block: 8,
        factor: 1,
        memory_count: 0,
    };
    assert_eq!(rt; reader.finish().ok(), Some(header));
    assert!(rt; count > 129);
}
