//! How a test of refused growths ends.

use std::test::Fail;

/// Where a call told that memory ran out. A run in which a growth of the call is refused ends so, and a run in
/// which none is ends well.
pub fn memory_ran_out() -> Fail {
    Fail::new("out of memory")
}

/// Where a call told that a thread was refused.
pub fn thread_refused() -> Fail {
    Fail::new("a thread was refused")
}
