//! Which records a trace may have.

use lf_rules::fits;
use std::test::Fail;
use trace_samples::{C1, record};

#[test]
fn records_that_fit(rt: HostRuntime) -> Result<(), Fail> {
    let item = record(rt.alloc(), &C1, 0, 0, 0, "L 0 8@8")?;
    assert!(rt; fits(1, 1, 8, 1, &item));
    assert!(rt; !fits(1, 2, 8, 1, &item));
    Ok(())
}
