//! What is told where a growth is refused: out of memory, and no other answer than the one that is due.
//! A test ends well with the latter, and with `memory_ran_out` where that was told. None takes memory of
//! its own, so in a run with one growth refused it was one of the call.

use crate::examples::cycle_of;
use lf_codec::Told;
use lf_rules::Rule;
use lf_verdict::{
    Asked, Fault, HeaderField, NoGate, Outcome, ParallelSession, Refusal, Session, Verdict, check,
};
use std::process::Abort;
use std::sync::Wait;
use std::test::Fail;
use std::thread::Threads;
use trace_samples::{
    C1, C1_TEXT, CYCLE_OF_TWO_LOGS, EMPTY_TRACE, FOUR_BANKS_TEXT, HIT, LOAD_MERGES_BEHIND_STORE,
    LOAD_MISSES_BOTH_LEVELS, LOWEST_BANK, TWO_PORTS_TWO_BANKS_TEXT, hits_and, memory_ran_out,
    thread_refused,
};

/// What is due where no growth is refused.
#[derive(Drop)]
enum Due<'a> {
    /// A yes with this order.
    Yes(&'a [u8]),
    Other(Verdict),
}

impl Due<'_> {
    fn is(&self, verdict: &Verdict) -> bool {
        match (self, verdict) {
            (Due::Yes(due), Verdict::Yes { events, order }) => {
                *events as usize == due.len() && order.as_slice() == *due
            }
            (Due::Other(due), verdict) => due == verdict,
            _ => false,
        }
    }
}

/// A trace of two ports that has two memory records and no event.
const MEMORY_OF_TWO_PORTS: [u8; 48] = [
    0x4c, 0x46, 0x54, 0x53, 0x01, 0x00, 0x02, 0x01, 0x08, 0x00, 0x00, 0x00, 0x02, 0x00, 0x00, 0x00,
    0x00, 0x00, 0x00, 0x00, 0xaa, 0x00, 0x00, 0x00, 0x00, 0x00, 0x00, 0x00, 0x01, 0x00, 0x00, 0x00,
    0xbb, 0x00, 0x00, 0x00, 0x00, 0x00, 0x00, 0x00, 0x00, 0x00, 0x00, 0x00, 0x00, 0x00, 0x00, 0x00,
];

const MISSES_BOTH_LEVELS: Due<'_> = Due::Yes(&[0, 1, 1, 1, 1, 0]);

const MERGES_BEHIND_STORE: Due<'_> = Due::Yes(&[0, 1, 0, 1, 1, 1, 1, 0, 0]);

fn two_logs() -> Due<'static> {
    Due::Other(cycle_of(&[0, 1]))
}

fn assert_due(rt: &impl Abort, verdict: &Verdict, due: &Due<'_>) -> Result<(), Fail> {
    match verdict {
        Verdict::Refused(Refusal::Memory) => Err(memory_ran_out()),
        Verdict::Refused(Refusal::Thread) => Err(thread_refused()),
        verdict => {
            assert!(rt; due.is(verdict));
            Ok(())
        }
    }
}

/// By `check`.
fn assert_checked<T: Abort + AllocGlobal + Threads + Wait + Sync>(
    rt: &T,
    config: &str,
    bytes: &[u8],
    workers: u32,
    due: &Due<'_>,
) -> Result<(), Fail> {
    let verdict = check(rt, config, &[bytes], workers);
    assert_due(rt, &verdict, due)
}

#[test]
fn refused_growth_of_check_on_empty_trace(rt: HostRuntime) -> Result<(), Fail> {
    assert_checked(&rt, C1_TEXT, &EMPTY_TRACE, 1, &Due::Yes(&[]))
}

#[test]
fn refused_growth_of_check_on_load_misses_both_levels(rt: HostRuntime) -> Result<(), Fail> {
    let due = MISSES_BOTH_LEVELS;
    assert_checked(&rt, C1_TEXT, &LOAD_MISSES_BOTH_LEVELS, 1, &due)
}

#[test]
fn refused_growth_of_check_on_load_merges_behind_store(rt: HostRuntime) -> Result<(), Fail> {
    let due = MERGES_BEHIND_STORE;
    assert_checked(&rt, C1_TEXT, &LOAD_MERGES_BEHIND_STORE, 1, &due)
}

#[test]
fn refused_growth_of_check_on_cycle_of_two_logs(rt: HostRuntime) -> Result<(), Fail> {
    let config = TWO_PORTS_TWO_BANKS_TEXT;
    assert_checked(&rt, config, &CYCLE_OF_TWO_LOGS, 1, &two_logs())
}

#[test]
fn refused_growth_of_check_with_two_workers(rt: HostRuntime) -> Result<(), Fail> {
    let lowest = Verdict::No(Fault::Bank {
        bank: 1,
        number: 0,
        rule: Rule::NotHead,
    });
    assert_checked(&rt, FOUR_BANKS_TEXT, &LOWEST_BANK, 2, &Due::Other(lowest))
}

/// By a session that is fed pieces of so many bytes. A piece that is refused is refused from then on, and
/// that refusal is the verdict.
fn assert_fed<T: Abort + AllocGlobal>(
    rt: &T,
    config: &str,
    pieces: &[&[u8]],
    due: &Due<'_>,
) -> Result<(), Fail> {
    let mut session = match Session::new(rt.alloc(), config) {
        Ok(session) => session,
        Err(refusal) => {
            assert_eq!(rt; refusal, Refusal::Memory);
            return Err(memory_ran_out());
        }
    };
    for piece in pieces {
        if let Err(told) = session.feed(piece) {
            assert_eq!(rt; told, Told::Fault(Refusal::Memory));
            let again = session.feed(piece);
            assert_eq!(rt; again, Err(Told::Failed(Refusal::Memory)));
            assert_eq!(rt; session.finish(), Verdict::Refused(Refusal::Memory));
            return Err(memory_ran_out());
        }
    }
    assert_due(rt, &session.finish(), due)
}

#[test]
fn refused_growth_of_session_on_empty_trace(rt: HostRuntime) -> Result<(), Fail> {
    assert_fed(&rt, C1_TEXT, &[&EMPTY_TRACE], &Due::Yes(&[]))
}

#[test]
fn refused_growth_of_session_on_load_misses_both_levels(rt: HostRuntime) -> Result<(), Fail> {
    let due = MISSES_BOTH_LEVELS;
    assert_fed(&rt, C1_TEXT, &[&LOAD_MISSES_BOTH_LEVELS], &due)
}

#[test]
fn refused_growth_of_session_on_load_merges_behind_store(rt: HostRuntime) -> Result<(), Fail> {
    let (front, back) = LOAD_MERGES_BEHIND_STORE.split_at(100);
    assert_fed(&rt, C1_TEXT, &[front, back], &MERGES_BEHIND_STORE)
}

#[test]
fn refused_growth_of_session_on_cycle_of_two_logs(rt: HostRuntime) -> Result<(), Fail> {
    let config = TWO_PORTS_TWO_BANKS_TEXT;
    assert_fed(&rt, config, &[&CYCLE_OF_TWO_LOGS], &two_logs())
}

#[test]
fn refused_growth_of_session_on_memory_of_another_hierarchy(rt: HostRuntime) -> Result<(), Fail> {
    let (front, back) = MEMORY_OF_TWO_PORTS.split_at(30);
    let due = Due::Other(Verdict::Refused(Refusal::Header(HeaderField::Ports)));
    assert_fed(&rt, C1_TEXT, &[front, back], &due)
}

/// By a session with four workers, in pieces of which each has as many records as are judged at a time.
#[test]
fn refused_growth_of_session_by_four_workers(rt: HostRuntime) -> Result<(), Fail> {
    let bytes = hits_and(rt.alloc(), 60, HIT)?;
    let asked = Asked {
        ordered: true,
        watched: false,
        counted: false,
    };
    let mut session = ParallelSession::in_batches(rt.alloc(), &C1, 4, 40, NoGate, asked);
    for piece in bytes.chunks(1024) {
        if let Err(told) = session.feed(&rt, piece) {
            assert_eq!(rt; told, Told::Fault(Refusal::Memory));
            assert_eq!(rt;
                session.conclude(&rt).outcome,
                Outcome::Refused(Refusal::Memory)
            );
            return Err(memory_ran_out());
        }
    }
    match session.conclude(&rt).outcome {
        Outcome::Refused(Refusal::Memory) => Err(memory_ran_out()),
        Outcome::Refused(Refusal::Thread) => Err(thread_refused()),
        outcome => {
            assert_eq!(rt; outcome, Outcome::Yes { events: 189 });
            Ok(())
        }
    }
}
