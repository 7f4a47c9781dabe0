//! What a session that counts tells where it ends.

use lf_verdict::{Asked, Outcome, Session};
use std::test::Fail;
use trace_samples::{C1, HIT, LOAD, LOADED, trace_of};

#[test]
fn a_miss_and_a_hit(rt: HostRuntime) -> Result<(), Fail> {
    let bytes = trace_of(rt.alloc(), &C1, &[LOAD, LOADED, HIT])?;
    let lines = "bank=0 hits=1 primary=1 merges=0 stalls=0 peak=1\nport=0 unanswered=0\n";
    let asked = Asked {
        ordered: false,
        watched: false,
        counted: true,
    };
    let mut session = Session::asking(rt.alloc(), &C1, asked);
    let _ = session.feed(&bytes);
    let end = session.conclude();
    assert!(rt; matches!(&end.outcome, Outcome::Yes { .. }));
    let told = match &end.statistics {
        Some(stats) => format!(in rt.alloc(); "{stats}")?,
        None => String::new(rt.alloc()),
    };
    assert_eq!(rt; told.as_str(), lines);
    Ok(())
}
