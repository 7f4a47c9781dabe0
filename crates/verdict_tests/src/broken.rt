//! What is told while a trace comes, before its end.

ghost use Rattle.std.specs.Prelude.{◌<◌};

use lf_rules::Rule;
use lf_verdict::{Broken, PartFault, Session, Upon};
use trace_samples::{C1, LOAD_MISSES_BOTH_LEVELS};

/// How many bytes a session is fed, in pieces of so many, until it tells what broke, and what that is.
fn told_after<T: AllocGlobal>(rt: &T, bytes: &[u8], size: usize) -> Option<(usize, Broken)>
    requires { 0 < size }
{
    let mut session = Session::for_shape(rt.alloc(), &C1);
    let mut fed = 0usize;
    for piece in bytes.chunks(size) {
        session.feed(piece).ok()?;
        fed = fed.saturating_add(piece.len());
        if let Some(broken) = session.broken() {
            return Some((fed, broken));
        }
    }
    None
}

#[test]
fn a_wrong_byte_is_told_with_its_record(rt: HostRuntime) {
    let mut bytes = LOAD_MISSES_BOTH_LEVELS;
    bytes[116] = 1;
    let fault = PartFault::Bank {
        bank: 0,
        number: 5,
        rule: Rule::ReplyData,
    };
    let (log, at, offset) = (0, 1, 104);
    let upon = Some(Upon { log, at, offset });
    let due = Broken::Part { fault, upon };
    assert_eq!(rt; told_after(&rt, &bytes, 1), Some((124, due)));
}

/// What a session tells that was fed the bytes in pieces of so many, whether they were refused or not.
fn told_of<T: AllocGlobal>(rt: &T, bytes: &[u8], size: usize) -> Option<Broken>
    requires { 0 < size }
{
    let mut session = Session::for_shape(rt.alloc(), &C1);
    for piece in bytes.chunks(size) {
        let _ = session.feed(piece);
    }
    let told = session.broken();
    let concluded = session.conclude().broken;
    if told == concluded { told } else { None }
}

#[test]
fn what_stands_before_a_fault_of_the_format_is_told(rt: HostRuntime) {
    let mut bytes = [0u8; 133];
    bytes[..132].copy_from_slice(&LOAD_MISSES_BOTH_LEVELS);
    for shorter in 0..133usize {
        assert!(rt; told_of(&rt, &bytes, shorter + 1).is_none());
    }
    bytes[116] = 1;
    let fault = PartFault::Bank {
        bank: 0,
        number: 5,
        rule: Rule::ReplyData,
    };
    let (log, at, offset) = (0, 1, 104);
    let upon = Some(Upon { log, at, offset });
    let due = Some(Broken::Part { fault, upon });
    for shorter in 0..133usize {
        assert!(rt; told_of(&rt, &bytes, shorter + 1) == due);
    }
}
