//! Why a verdict is what it is, as it is written.

use crate::streams::Pieces;
use run_engine::Counted;
use run_report::{Asked, run_explain};
use std::process::Abort;
use std::test::Fail;
use std::thread::Threads;
use trace_samples::{C1_TEXT, LOAD_MISSES_BOTH_LEVELS};

/// Fails where another text is written of the trace in these bytes.
fn assert_written<T: Abort + AllocGlobal + Threads + Sync + Send + Copy + 'static>(
    rt: &T,
    bytes: &[u8],
    most: u16,
    text: &str,
) -> Result<(), Fail> {
    let mut reader = Counted::new(Pieces::new(bytes, 50));
    let mut writer = Counted::new(Vec::new(rt.alloc()));
    let asked = Asked {
        most,
        times: None,
        complete: true,
        first: false,
    };
    let answer = run_explain(rt, &mut reader, &mut writer, C1_TEXT, &asked, 1000);
    assert!(rt; answer.is_ok());
    assert_eq!(rt; std::str::from_utf8(writer.inner()), Ok(text));
    Ok(())
}

#[test]
fn yes_and_what_is_used(rt: HostRuntime) -> Result<(), Fail> {
    let text = "\
yes events=6

used at once, at most:
bank 0 level 1: ways of a set 1 of 1; registers 1 of 1; targets of a register 1 of 2
bank 0 level 2: ways of a set 1 of 2; registers 1 of 1; targets of a register 1 of 1
port 0: tags 1 of 4
";
    assert_written(&rt, &LOAD_MISSES_BOTH_LEVELS, 15, text)
}
