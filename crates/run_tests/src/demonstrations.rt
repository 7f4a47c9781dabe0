//! The line that is written of the trace of a demonstration.

ghost use Rattle.lf_rules.specs.InRange.{IsShape};

use lf_rules::{Level, OrgShape, Shape};
use recorder_demo::demo_trace;
use run_engine::{Counted, run_shape};
use std::process::Abort;
use std::sync::Wait;
use std::test::Fail;
use std::thread::Threads;
use trace_samples::{C1, C2};

/// `C1` with four ports and four banks, and a register for each tag in level one.
const INVERTED_OF_FOUR: Shape = Shape {
    ports: 4,
    banks: 4,
    level1: Level {
        sets: 1,
        ways: 1,
        organisation: OrgShape::Inverted,
    },
    ..C1
};

/// `C1` with two ports, and a register with a field for each word in level one.
const IMPLICIT_OF_TWO: Shape = Shape {
    ports: 2,
    level1: Level {
        sets: 1,
        ways: 1,
        organisation: OrgShape::Implicit { registers: 1 },
    },
    ..C1
};

/// `C2` with four ports and four banks.
const WIDE_OF_FOUR: Shape = Shape {
    ports: 4,
    banks: 4,
    ..C2
};

/// Fails where the trace of a demonstration is not legal, or has another number of events.
fn assert_legal<T: Abort + AllocGlobal + Threads + Wait + Sync + Send + Copy + 'static>(
    rt: &T,
    shape: &Shape,
) -> Result<(), Fail>
    requires { IsShape shape.now }
{
    let Ok((count, bytes)) = demo_trace(rt, shape, 10_000_000) else {
        return Err(Fail::new("no trace"));
    };
    let mut reader = Counted::new(bytes.as_slice());
    let mut writer = Counted::new(Vec::new(rt.alloc()));
    let answer = run_shape(rt, &mut reader, &mut writer, shape, 1, 1000);
    assert!(rt; answer.is_ok());
    let line = format!(in rt.alloc(); "yes events={count}\n")?;
    assert_eq!(rt; writer.inner().as_slice(), line.as_bytes());
    Ok(())
}

#[test]
fn demo_of_one_port(rt: HostRuntime) -> Result<(), Fail> {
    assert_legal(&rt, &C1)?;
    assert_legal(&rt, &C2)
}

#[test]
fn demo_of_several_ports(rt: HostRuntime) -> Result<(), Fail> {
    assert_legal(&rt, &IMPLICIT_OF_TWO)?;
    assert_legal(&rt, &INVERTED_OF_FOUR)?;
    assert_legal(&rt, &WIDE_OF_FOUR)
}
