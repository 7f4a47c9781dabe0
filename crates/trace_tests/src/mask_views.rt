//! Masks that are kept and masks that are spelled, with answers worked out by hand.

use lf_rules::Mask;
use trace_samples::masks;
use trace_views::MasksView;

#[test]
fn masks_that_are_kept(rt: HostRuntime) {
    let two = masks("3,c0");
    let view = MasksView::of(&two);
    assert_eq!(rt; view.len(), 2);
    assert_eq!(rt; view.get(1), Mask(0xc0));
    assert_eq!(rt; view.get(2), Mask(0));
    assert!(rt; view.to_masks() == two);
}

/// The last byte is behind the second mask, and spells none.
#[test]
fn masks_that_are_spelled(rt: HostRuntime) {
    let bytes = [3, 0, 0, 0, 0, 0, 0, 0, 0xc0, 1, 0, 0, 0, 0, 0, 0x80, 9];
    let view = MasksView::Spelled(&bytes);
    assert_eq!(rt; view.len(), 2);
    assert_eq!(rt; view.get(1), Mask(0x8000_0000_0000_01c0));
    assert_eq!(rt; view.get(2), Mask(0));
    assert!(rt; view.to_masks() == masks("3,80000000000001c0"));
}
