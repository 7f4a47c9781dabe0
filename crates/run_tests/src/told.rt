//! The line that is written of the bytes of a trace.

ghost use Rattle.lf_rules.specs.InRange.{IsShape};

use crate::streams::Pieces;
use lf_rules::Shape;
use run_engine::{Counted, run_check, run_shape};
use std::process::Abort;
use std::test::Fail;
use std::thread::Threads;
use trace_samples::{C1_TEXT, LOAD_MISSES_BOTH_LEVELS};

/// Fails where another line is written of these bytes.
pub fn assert_line<T: Abort + AllocGlobal + Threads + Sync + Send + Copy + 'static>(
    rt: &T,
    shape: &Shape,
    bytes: &[u8],
    line: &str,
) -> Result<(), Fail>
    requires { IsShape shape.now }
{
    let mut reader = Counted::new(Pieces::new(bytes, 50));
    let mut writer = Counted::new(Vec::new(rt.alloc()));
    let answer = run_shape(rt, &mut reader, &mut writer, shape, 1, 1000);
    assert!(rt; answer.is_ok());
    assert_eq!(rt; std::str::from_utf8(writer.inner()), Ok(line));
    Ok(())
}

/// Where no order is asked for, a run writes the same.
#[test]
fn line_without_an_order(rt: HostRuntime) -> Result<(), Fail> {
    let mut reader = Counted::new(Pieces::new(&LOAD_MISSES_BOTH_LEVELS, 50));
    let mut writer = Counted::new(Vec::new(rt.alloc()));
    let answer = run_check(&rt, &mut reader, &mut writer, C1_TEXT, 1, 1000);
    assert!(rt; answer.is_ok());
    assert_eq!(rt; writer.inner().as_slice(), b"yes events=6\n".as_slice());
    Ok(())
}
