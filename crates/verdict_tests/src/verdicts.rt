//! What is asked of the verdict of some bytes.

ghost use Rattle.std.specs.Prelude.{◌<◌};
ghost use Rattle.lf_rules.specs.InRange.{IsShape};

use lf_codec::{CodecCause, CodecFault};
use lf_rules::{Rule, Shape};
use lf_verdict::{Fault, NoGate, Refusal, Session, Verdict, check_shape};
use std::alloc::{AllocError, Global};
use std::process::Abort;
use std::sync::Wait;
use std::test::Fail;
use std::thread::Threads;
use trace_samples::trace_of;

pub fn yes(alloc: Global, order: &[u8]) -> Result<Verdict, AllocError> {
    Ok(Verdict::Yes {
        events: order.len().min(1000) as u32,
        order: Vec::from_slice(alloc, order)?,
    })
}

/// A no for port 0.
pub fn port_fault(at: u32, rule: Rule) -> Verdict {
    let port = 0;
    Verdict::No(Fault::Port { port, at, rule })
}

pub fn format_fault(cause: CodecCause, offset: u64) -> Verdict {
    Verdict::Refused(Refusal::Format(CodecFault { cause, offset }))
}

/// The answer of a session that is fed pieces of so many bytes.
fn by_session<T: AllocGlobal>(rt: &T, shape: &Shape, bytes: &[u8], size: usize) -> Verdict
    requires shape { IsShape shape.now }
    requires size { 0 < size }
{
    let mut session = Session::for_shape(rt.alloc(), shape);
    for piece in bytes.chunks(size) {
        let _ = session.feed(piece);
    }
    session.finish()
}

/// Fails where another verdict is told of the bytes, by a check of them in one piece with one worker or
/// with two, by a session that is fed one piece or by a session that is fed byte by byte.
pub fn assert_verdict<T: Abort + AllocGlobal + Threads + Wait + Sync>(
    rt: &T,
    shape: &Shape,
    bytes: &[u8],
    verdict: &Verdict,
) -> Result<(), Fail>
    requires { IsShape shape.now }
{
    for workers in [1u32, 2] {
        let checked = check_shape(rt, shape, &[bytes], workers, &NoGate);
        assert_eq!(rt; checked, *verdict);
    }
    for size in [1000usize, 1] {
        let answer = by_session(rt, shape, bytes, size);
        assert_eq!(rt; answer, *verdict);
    }
    Ok(())
}

/// Asserts the verdict on the trace of these events of port 0 and bank 0.
pub fn assert_told<T: Abort + AllocGlobal + Threads + Wait + Sync>(
    rt: &T,
    shape: &Shape,
    parts: &[&str],
    verdict: &Verdict,
) -> Result<(), Fail>
    requires { IsShape shape.now }
{
    let bytes = trace_of(rt.alloc(), shape, parts)?;
    assert_verdict(rt, shape, &bytes, verdict)
}
