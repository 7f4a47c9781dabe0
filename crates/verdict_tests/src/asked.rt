//! What a session tells where it is asked for more or for less.

use lf_rules::Rule;
use lf_verdict::{Asked, Broken, Conclusion, NoGate, Outcome, ParallelSession, PartFault, Upon};
use std::test::Fail;
use std::thread::Threads;
use trace_samples::{C1, HIT, LOAD, LOAD_MISSES_BOTH_LEVELS, LOADED, trace_of};

const NOTHING: Asked = Asked {
    ordered: false,
    watched: false,
    counted: false,
};

const ALL: Asked = Asked {
    ordered: true,
    watched: true,
    counted: true,
};

/// What four workers conclude, which judge one record at a time where they may.
fn concluded<T: AllocGlobal + Threads + Sync + Send + Copy + 'static>(
    rt: &T,
    bytes: &[u8],
    asked: Asked,
) -> Conclusion {
    let mut session = ParallelSession::in_batches(rt.alloc(), &C1, 4, 1, NoGate, asked);
    for piece in bytes.chunks(30) {
        let _ = session.feed(rt, piece);
    }
    session.conclude(rt)
}

#[test]
fn nothing_is_asked(rt: HostRuntime) -> Result<(), Fail> {
    let bytes = trace_of(rt.alloc(), &C1, &[LOAD, LOADED, HIT])?;
    let end = concluded(&rt, &bytes, NOTHING);
    assert_eq!(rt; end.outcome, Outcome::Yes { events: 9 });
    assert!(rt; end.order.is_none());
    assert!(rt; end.statistics.is_none());
    Ok(())
}

#[test]
fn all_is_asked(rt: HostRuntime) -> Result<(), Fail> {
    let bytes = trace_of(rt.alloc(), &C1, &[LOAD, LOADED, HIT])?;
    let end = concluded(&rt, &bytes, ALL);
    assert_eq!(rt; end.outcome, Outcome::Yes { events: 9 });
    let order = end.order.map_or(0, |order: Vec<u8>| order.len());
    assert_eq!(rt; order, 9);
    assert!(rt; end.statistics.is_some());
    assert!(rt; end.broken.is_none());
    Ok(())
}

#[test]
fn what_broke_first_by_several_workers(rt: HostRuntime) {
    let mut bytes = LOAD_MISSES_BOTH_LEVELS;
    bytes[116] = 1;
    let fault = PartFault::Bank {
        bank: 0,
        number: 5,
        rule: Rule::ReplyData,
    };
    let (log, at, offset) = (0, 1, 104);
    let upon = Some(Upon { log, at, offset });
    let due = Some(Broken::Part { fault, upon });
    assert_eq!(rt; concluded(&rt, &bytes, ALL).broken, due);
}
