//! Which request has no reply where a session ends.

use lf_verdict::{Incomplete, Outcome, Session};
use std::test::Fail;
use trace_samples::{C1, LOAD, LOADED, trace_of};

#[test]
fn the_lowest_tag_without_a_reply(rt: HostRuntime) -> Result<(), Fail> {
    let bytes = trace_of(rt.alloc(), &C1, &[LOAD, LOADED, "L 2 8@0, L 1 8@0"])?;
    let mut session = Session::for_shape(rt.alloc(), &C1);
    let _ = session.feed(&bytes);
    let end = session.conclude();
    assert!(rt; matches!(&end.outcome, Outcome::Yes { .. }));
    let found = Some(Incomplete { port: 0, tag: 1 });
    assert_eq!(rt; end.incomplete, found);
    Ok(())
}
