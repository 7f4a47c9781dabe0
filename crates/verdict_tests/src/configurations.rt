//! Verdicts for a configuration, and sessions of one.

use crate::verdicts::yes;
use lf_codec::{CodecCause, CodecFault, Told};
use lf_verdict::{Refusal, Session, Verdict, check};
use std::test::Fail;
use trace_samples::{C1_TEXT, EMPTY_TRACE, LOAD_MISSES_BOTH_LEVELS};

#[test]
fn the_configuration_is_read(rt: HostRuntime) -> Result<(), Fail> {
    let bytes: &[u8] = &LOAD_MISSES_BOTH_LEVELS;
    for workers in [1u32, 2] {
        let verdict = check(&rt, C1_TEXT, &[bytes], workers);
        assert_eq!(rt; verdict, yes(rt.alloc(), &[0, 1, 1, 1, 1, 0])?);
    }
    Ok(())
}

#[test]
fn session_of_a_configuration(rt: HostRuntime) -> Result<(), Fail> {
    let Ok(mut session) = Session::new(rt.alloc(), C1_TEXT) else {
        return Err(Fail::new("no session"));
    };
    assert_eq!(rt; session.feed(&LOAD_MISSES_BOTH_LEVELS), Ok(()));
    assert_eq!(rt; session.finish(), yes(rt.alloc(), &[0, 1, 1, 1, 1, 0])?);
    Ok(())
}

#[test]
fn session_after_refusal(rt: HostRuntime) -> Result<(), Fail> {
    let mut bytes = EMPTY_TRACE.to_vec(rt.alloc())?;
    bytes.push(0)?;
    let trailing = CodecFault {
        cause: CodecCause::Trailing,
        offset: 24,
    };
    let Ok(mut session) = Session::new(rt.alloc(), C1_TEXT) else {
        return Err(Fail::new("no session"));
    };
    let told = session.feed(&bytes);
    assert_eq!(rt; told, Err(Told::Fault(Refusal::Format(trailing))));
    let told = session.feed(&[0]);
    assert_eq!(rt; told, Err(Told::Failed(Refusal::Format(trailing))));
    let refusal = Refusal::Format(trailing);
    assert_eq!(rt; session.finish(), Verdict::Refused(refusal));
    Ok(())
}
