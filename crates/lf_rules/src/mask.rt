//! Which bytes of a block, and of each block of a second-level block.

ghost use Rattle.std.specs.Prelude.{◌≡◌, ℕ, ◌+◌, ◌<◌, ◌≤◌, ◌↔◌, ◌&&◌, ◌||◌, IsTrue, true, bit_or, nat_le, nat_lt};
ghost use Rattle.std.specs.Prelude.{length, slice_index};
ghost use Rattle.lf_rules.specs.Address.{Covers, agree_off, is_under, mask_at, mask_of, overlay};
ghost use Rattle.lf_rules.specs.Lines.{clean_masks, same_masks};

use crate::event::{Block, Masks};

/// Which bytes of a block: bit i stands for byte i.
#[derive(Clone, Copy, Debug, Default, PartialEq, Eq)]
pub struct Mask(pub u64);

impl Mask {
    /// The mask of `size` bytes from `offset` on.
    pub fn of(offset: u32, size: u32) -> Mask
        requires { offset + size ≤ 64 }
        ensures value { result.0 ≡ mask_of offset size }
        ensures bits { (i : ℕ) → is_under result.0 i ≡ (nat_le offset i && nat_lt i (offset + size)) }
    {
        if size == 0 {
            Mask(0)
        } else {
            Mask((u64::MAX >> (64 - size)) << offset)
        }
    }

    /// The bytes of either mask.
    pub fn union(self, other: Mask) -> Mask
        ensures value { result.0 ≡ bit_or self.0 other.0 }
        ensures bits { (i : ℕ) → is_under result.0 i ≡ (is_under self.0 i || is_under other.0 i) }
    {
        Mask(self.0 | other.0)
    }

    /// Whether each byte of the other mask is one of this.
    pub fn covers(self, other: Mask) -> bool
        ensures { IsTrue result ↔ Covers self.0 other.0 }
    {
        self.0 & other.0 == other.0
    }

    /// Whether the byte at the place is one of the mask.
    fn has(self, place: usize) -> bool
        requires { place < 64 }
        ensures { result ≡ is_under self.0 place }
    {
        self.0 >> place & 1 == 1
    }
}

fn slices_agree_off(a: &[u8], b: &[u8], mask: Mask) -> bool
    requires same_length { length a.now ≡ length b.now }
    requires within { length a.now ≤ 64 }
    ensures { result ≡ agree_off (length a.now) a.now b.now mask.0 }
{
    for (i, x) in a.iter().enumerate() {
        if !mask.has(i) && *x != b[i] {
            return false;
        }
    }
    true
}

/// Whether the blocks are equal at each byte off the mask.
pub fn agree_off(a: &Block, b: &Block, mask: Mask) -> bool
    requires { length a.now.items ≡ length b.now.items }
    ensures { result ≡ agree_off (length a.now.items) a.now.items b.now.items mask.0 }
{
    slices_agree_off(a, b, mask)
}

fn overlay_slices(old: &[u8], new: &[u8], mask: Mask) -> Block
    requires same_length { length old.now ≡ length new.now }
    requires within { length old.now ≤ 64 }
    ensures len { length result.items ≡ length old.now }
    ensures bytes { (i : ℕ) → i < length old.now → slice_index result.items i
        ≡ overlay (slice_index old.now) (slice_index new.now) mask.0 i }
{
    let mut bytes = Block::new();
    for (i, x) in old.iter().enumerate() {
        bytes.push(if mask.has(i) { new[i] } else { *x });
    }
    bytes
}

/// The new bytes under the mask, and the old ones off it.
pub fn overlay(old: &Block, new: &Block, mask: Mask) -> Block
    requires { length old.now.items ≡ length new.now.items }
    ensures len { length result.items ≡ length old.now.items }
    ensures bytes { (i : ℕ) → i < length old.now.items → slice_index result.items i
        ≡ overlay (slice_index old.now.items) (slice_index new.now.items) mask.0 i }
{
    overlay_slices(old, new, mask)
}

/// The mask at the place of a second-level block, and 0 where there is none.
pub fn mask_at(masks: &Masks, place: u32) -> u64
    ensures { result ≡ mask_at masks.now place }
{
    match masks.get(place as usize) {
        Some(mask) => mask.0,
        None => 0,
    }
}

/// Whether so many masks are the same.
pub fn same_masks(factor: u32, a: &Masks, b: &Masks) -> bool
    ensures { result ≡ same_masks factor a.now b.now }
{
    (0..factor).all(|place| mask_at(a, place) == mask_at(b, place))
}

/// So many masks of no bytes.
pub fn clean_masks(factor: u32) -> Masks
    requires { factor ≤ 4 }
    ensures { result ≡ clean_masks factor }
{
    let mut masks = Masks::new();
    for _ in 0..factor {
        masks.push(Mask(0));
    }
    masks
}
