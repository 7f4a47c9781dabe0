//! The set that a block is in.

use lf_levels::{One, Sets, Two};

#[test]
fn sets_of_both_levels(rt: HostRuntime) {
    let sets = Sets::new(4, 2, 8);
    assert_eq!(rt; sets.set_of::<One>(77), 3);
    assert_eq!(rt; sets.set_of::<Two>(38), 1);
}
