//! A run with several workers writes the line of one with one.

use run_engine::{Counted, run_shape};
use std::test::Fail;
use trace_samples::{C1, hits_and};

/// A trace of more bytes than are judged without workers, and of so many more that some records are judged while others
/// are read.
#[test]
fn line_by_several_workers(rt: HostRuntime) -> Result<(), Fail> {
    let bytes = hits_and(rt.alloc(), 7000, "L 0 8@0, H 0, R 0=0000000000000001")?;
    assert!(rt; bytes.len() > 327_680);
    for workers in [1u32, 4] {
        let mut reader = Counted::new(bytes.as_slice());
        let mut writer = Counted::new(Vec::new(rt.alloc()));
        let answer = run_shape(&rt, &mut reader, &mut writer, &C1, workers, 1000);
        assert!(rt; answer.is_ok());
        let line = "no bank=0 number=21008 rule=ReplyData\n";
        assert_eq!(rt; std::str::from_utf8(writer.inner()), Ok(line));
    }
    Ok(())
}
