//! Calls of masks, with answers worked out by hand.

ghost use Rattle.std.specs.Prelude.{◌≡◌, length};

use lf_rules::{Block, Mask, agree_off, clean_masks, mask_at, overlay, same_masks};
use trace_samples::masks;

fn block_of(first: u8, second: u8, third: u8) -> Block
    ensures { length result.items ≡ 3 }
{
    let mut block = Block::new();
    block.push(first);
    block.push(second);
    block.push(third);
    block
}

#[test]
fn masks_by_their_bytes(rt: HostRuntime) {
    for (offset, size, want) in [
        (0, 0, 0),
        (2, 2, 0b1100),
        (0, 64, u64::MAX),
        (56, 8, 0xff << 56),
    ] {
        assert_eq!(rt; Mask::of(offset, size), Mask(want));
    }
    let low = Mask::of(0, 2);
    assert_eq!(rt; low.union(Mask::of(4, 1)), Mask(0b1_0011));
    assert!(rt; low.covers(Mask::of(1, 1)));
}

#[test]
fn blocks_under_a_mask(rt: HostRuntime) {
    let old = block_of(1, 2, 3);
    let new = block_of(1, 9, 3);
    assert!(rt; agree_off(&old, &new, Mask::of(1, 1)));
    assert!(rt; overlay(&old, &new, Mask::of(1, 2)) == new);
}

#[test]
fn masks_of_a_second_level_block(rt: HostRuntime) {
    let two = masks("3,c0");
    assert_eq!(rt; mask_at(&two, 1), 0xc0);
    assert!(rt; same_masks(1, &two, &masks("3,0")));
    assert!(rt; clean_masks(2) == masks("0,0"));
}
