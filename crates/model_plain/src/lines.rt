//! The lines of one level of a bank: a map from each block that is there to what is dirty of it.

ghost use Rattle.std.specs.Prelude.{◌≡◌};
ghost use Rattle.lf_rules.specs.Address.{set1_of, set2_of};
ghost use Rattle.lf_rules.specs.InRange.{IsShape};
ghost use Rattle.lf_rules.specs.Lines.{dirty_mask, dirty_masks, has_line, has_way, marked, same_masks, without_line};

use lf_rules::{Mask, Masks, Shape, same_masks};
use std::collections::BTreeMap;

/// Level one: a mask for each block.
pub type LineMap = BTreeMap<u32, u64>;

/// Level two: the masks of each second-level block.
pub type WideLineMap = BTreeMap<u32, Masks>;

fn set1_of(shape: &Shape, block: u32) -> u32
    requires { IsShape shape.now }
    ensures { result ≡ set1_of shape.now.banks shape.now.factor shape.now.level1.sets block }
{
    (block / shape.factor / shape.banks * shape.factor + block % shape.factor) % shape.level1.sets
}

fn set2_of(shape: &Shape, second: u32) -> u32
    requires { IsShape shape.now }
    ensures { result ≡ set2_of shape.now.banks shape.now.level2.sets second }
{
    second / shape.banks % shape.level2.sets
}

pub fn has_line<M>(lines: &BTreeMap<u32, M>, block: u32) -> bool
    ensures { result ≡ has_line lines.now.entries block }
{
    lines.contains_key(&block)
}

/// Whether the block's set has a free way.
pub fn has_way1(shape: &Shape, lines: &LineMap, block: u32) -> bool
    requires { IsShape shape.now }
    ensures { result ≡ has_way (set1_of shape.now.banks shape.now.factor shape.now.level1.sets) shape.now.level1.ways
        lines.now.entries block }
{
    let set = set1_of(shape, block);
    let count = lines
        .iter()
        .filter(|line| set1_of(shape, *line.0) == set)
        .count();
    count < shape.level1.ways as usize
}

/// Whether the second-level block's set has a free way.
pub fn has_way2(shape: &Shape, lines: &WideLineMap, second: u32) -> bool
    requires { IsShape shape.now }
    ensures { result ≡ has_way (set2_of shape.now.banks shape.now.level2.sets) shape.now.level2.ways lines.now.entries
        second }
{
    let set = set2_of(shape, second);
    let count = lines
        .iter()
        .filter(|line| set2_of(shape, *line.0) == set)
        .count();
    count < shape.level2.ways as usize
}

/// The dirty mask of the block's line, and 0 where there is none.
pub fn dirty_mask(lines: &LineMap, block: u32) -> u64
    ensures { result ≡ dirty_mask lines.now.entries block }
{
    lines.get(&block).copied().unwrap_or(0)
}

/// Whether these are the dirty masks of the second-level block's line; where there is none, it has none.
pub fn are_dirty(factor: u32, lines: &WideLineMap, second: u32, masks: &Masks) -> bool
    ensures { result ≡ same_masks factor masks.now (dirty_masks lines.now.entries second) }
{
    let none = Masks::new();
    let dirty = match lines.get(&second) {
        Some(dirty) => dirty,
        None => &none,
    };
    same_masks(factor, masks, dirty)
}

/// The masks of the second-level block's line, where the one at this place gains these bytes.
pub fn marked_masks(lines: &WideLineMap, second: u32, place: u32, mask: u64) -> Masks
    ensures { result ≡ marked (dirty_masks lines.now.entries second) place mask }
{
    match lines.get(&second) {
        Some(dirty) => marked(dirty, place, mask),
        None => Masks::new(),
    }
}

fn marked(masks: &Masks, place: u32, mask: u64) -> Masks
    ensures { result ≡ marked masks.now place mask }
{
    let mut new = Masks::new();
    for i in 0..masks.len() {
        let old = masks[i];
        new.push(if i == place as usize {
            Mask(old.0 | mask)
        } else {
            old
        });
    }
    new
}

/// The block's line leaves.
pub fn drop_line<M: Drop>(lines: &mut BTreeMap<u32, M>, block: u32)
    ensures { lines.new.entries ≡ without_line lines.old.entries block }
{
    lines.retain(|b, _| *b != block);
}
