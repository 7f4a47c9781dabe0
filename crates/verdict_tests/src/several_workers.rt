//! Sessions with several workers answer as one with one.

ghost use Rattle.lf_rules.specs.InRange.{IsShape};

use lf_rules::{Rule, Shape};
use lf_verdict::{Asked, Broken, Conclusion, Gate, NoGate, Outcome, ParallelSession, PartFault};
use std::process::Abort;
use std::sync::atomic::{AtomicU64, Ordering};
use std::test::Fail;
use std::thread;
use std::thread::Threads;
use trace_samples::{C1, FOUR_BANKS, HIT, LOAD, LOADED, hits_and, trace_of};

/// A trace has many pieces of this length.
const PIECE: usize = 2048;

/// So few records are judged at a time that a thread is lent some after each piece.
const BATCH: usize = 64;

const ORDERED: Asked = Asked {
    ordered: true,
    watched: false,
    counted: false,
};

/// The answer of a session with so many workers.
fn by_workers<T: AllocGlobal + Threads + Sync + Send + Copy + 'static>(
    rt: &T,
    shape: &Shape,
    bytes: &[u8],
    workers: u32,
) -> Conclusion
    requires { IsShape shape.now }
{
    let alloc = rt.alloc();
    let mut session = ParallelSession::in_batches(alloc, shape, workers, BATCH, NoGate, ORDERED);
    for piece in bytes.chunks(PIECE) {
        let _ = session.feed(rt, piece);
    }
    session.conclude(rt)
}

#[test]
fn legal_by_several_workers(rt: HostRuntime) -> Result<(), Fail> {
    let bytes = hits_and(rt.alloc(), 300, HIT)?;
    for workers in [1u32, 2, 4, 16] {
        let end = by_workers(&rt, &C1, &bytes, workers);
        assert_eq!(rt; end.outcome, Outcome::Yes { events: 909 });
        let places = end.order.map_or(0, |order: Vec<u8>| order.len());
        assert_eq!(rt; places, 909);
    }
    Ok(())
}

/// What is told by so many workers, which judge so many records at a time, after the last piece, and then the outcome.
fn broken_by<T: AllocGlobal + Threads + Sync + Send + Copy + 'static>(
    rt: &T,
    bytes: &[u8],
    workers: u32,
    batch: usize,
) -> (Option<Broken>, Outcome) {
    let alloc = rt.alloc();
    let mut session = ParallelSession::in_batches(alloc, &C1, workers, batch, NoGate, ORDERED);
    let mut broken = None;
    for piece in bytes.chunks(PIECE) {
        let _ = session.feed(rt, piece);
        broken = session.broken(rt);
    }
    (broken, session.conclude(rt).outcome)
}

/// Fails where workers tell something else, or come to another outcome, whatever records they judge at a time. A piece
/// has fewer than 200, so with 200 they are judged once it is asked what broke.
fn assert_broken_by<T: Abort + AllocGlobal + Threads + Sync + Send + Copy + 'static>(
    rt: &T,
    bytes: &[u8],
    due: Option<Broken>,
) -> Result<(), Fail> {
    let outcome = by_workers(rt, &C1, bytes, 1).outcome;
    for workers in [1u32, 2, 4] {
        for batch in [1usize, BATCH, 200] {
            let (broken, answer) = broken_by(rt, bytes, workers, batch);
            assert_eq!(rt; broken, due);
            assert_eq!(rt; answer, outcome);
        }
    }
    Ok(())
}

#[test]
fn what_broke_by_several_workers(rt: HostRuntime) -> Result<(), Fail> {
    let wrong_reply = hits_and(rt.alloc(), 300, "L 0 8@0, H 0, R 0=0000000000000001")?;
    let fault = PartFault::Bank {
        bank: 0,
        number: 908,
        rule: Rule::ReplyData,
    };
    assert_broken_by(&rt, &wrong_reply, Some(Broken::Part { fault, upon: None }))
}

/// Holds each of the first two judges until both have entered.
#[derive(Drop)]
struct Pair {
    entered: AtomicU64,
    /// How many of the two saw both inside.
    met: AtomicU64,
}

impl Gate for Pair {
    fn enter(&self, _bank: u32) {
        if self.entered.fetch_add(1, Ordering::SeqCst) >= 2 {
            return;
        }
        for _ in 0..10_000_000u64 {
            if self.entered.load(Ordering::SeqCst) >= 2 {
                self.met.fetch_add(1, Ordering::SeqCst);
                break;
            }
            thread::yield_now();
        }
    }
}

/// Two workers judge two banks at once: each sees the other inside.
#[test]
fn judges_inside_at_once(rt: HostRuntime) -> Result<(), Fail> {
    let bytes = trace_of(rt.alloc(), &FOUR_BANKS, &[LOAD, LOADED])?;
    let pair: &'static Pair = Box::leak(Box::new(
        rt.alloc(),
        Pair {
            entered: AtomicU64::new(0),
            met: AtomicU64::new(0),
        },
    )?);
    let mut session = ParallelSession::in_batches(rt.alloc(), &FOUR_BANKS, 2, 1, pair, ORDERED);
    for piece in bytes.chunks(64) {
        let _ = session.feed(&rt, piece);
    }
    let is_yes = matches!(session.conclude(&rt).outcome, Outcome::Yes { .. });
    assert!(rt; is_yes);
    assert_eq!(rt; pair.met.load(Ordering::SeqCst), 2);
    Ok(())
}
