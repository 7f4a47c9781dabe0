//! The lines of level two, each with a mask for every first-level block of its block.

ghost use Rattle.std.specs.Prelude.{◌≡◌, ◌<◌, ◌≤◌, ◌/◌, ◌&&◌, true, false, not, length, Option, Some, None};
ghost use Rattle.std.specs.Prelude.{IfOk, IfErr, OnErr};
ghost use Rattle.lf_rules.specs.Fits.{is_factor};
ghost use Rattle.lf_rules.specs.Lines.{line_at, has_line, dirty_masks, same_masks};
ghost use Rattle.lf_levels.specs.LineTable.{IsLineTable, is_line2, ChangesOnly, is_full, wide_set, after_fill};
ghost use Rattle.lf_levels.specs.LineTable.{after_evict, joined, joined2, are_absent};
ghost use Rattle.lf_levels.specs.Refusals.{FillRefusal, WideEvictRefusal};
ghost use Rattle.lf_levels.specs.WayWords.{masks_of};

use crate::fault::LineFault;
use crate::level::{One, Two};
use crate::lines::Lines;
use lf_rules::{Mask, Masks, mask_at};

/// Each mask gains the bytes of the other that stands beside it.
pub fn join_masks(masks: &mut Masks, others: &Masks)
    ensures { masks.new.items ≡ joined masks.old.items others.now.items }
{
    for i in 0..masks.len() {
        masks[i].0 |= mask_at(others, i as u32);
    }
}

/// A mask for each word.
pub fn masks_of(words: &[u64]) -> Masks
    requires { length words.now ≤ 4 }
    ensures { result ≡ masks_of words.now }
{
    let mut masks = Masks::new();
    for word in words {
        masks.push(Mask(*word));
    }
    masks
}

/// Puts each mask into the word at its place.
pub fn put_masks(words: &mut [u64], masks: &Masks)
    requires { length masks.now.items ≡ length words.old }
    ensures count { length words.new ≡ length words.old }
    ensures value { masks_of words.new ≡ masks.now }
{
    for i in 0..words.len() {
        words[i] = masks[i].0;
    }
}

impl Lines<Two> {
    /// The dirty masks of the second-level block's line.
    pub fn dirty(&self, second: u32) -> Option<Masks>
        ensures value { result ≡ line_at self.now.lines second }
        ensures table { IsLineTable wide_set is_line2 self.now }
    {
        self.line(second)
    }

    /// A line comes to a second-level block that has none, with these dirty masks, one for each of its
    /// first-level blocks. `SetFull` where each way of the block's set has a line.
    pub fn fill(&mut self, second: u32, masks: Masks) -> Result<(), LineFault>
        requires absent { has_line self.old.lines second ≡ false }
        requires count { length masks.items ≡ self.old.factor }
        ensures free_way { IfOk result (λ _. is_full wide_set self.old second ≡ false) }
        ensures filled { IfOk result (λ _. self.new ≡ after_fill self.old second masks) }
        ensures here { IfOk result (λ _. ChangesOnly self.old self.new second (Some masks)) }
        ensures refused { IfErr result (λ fault. FillRefusal wide_set self.old second fault) }
        ensures unchanged { OnErr result (self.new ≡ self.old) }
    {
        self.put(second, masks)
    }

    /// The dirty masks of the second-level block's line gain these bytes, a mask for each of its
    /// first-level blocks.
    pub fn mark(&mut self, second: u32, masks: &Masks)
        requires there { has_line self.old.lines second ≡ true }
        requires count { length masks.now.items ≡ self.old.factor }
        ensures marked { self.new ≡ after_fill self.old second (joined2 self.old second masks.now) }
        ensures here { ChangesOnly self.old self.new second (Some (joined2 self.old second masks.now)) }
    {
        self.gain(second, masks);
    }

    /// The second-level block's line goes, where the masks, one for each of its first-level blocks, are
    /// its dirty masks. `EvictAbsent` where no line is on the block; `EvictMask` where there is one with
    /// another mask at some place.
    pub fn evict(&mut self, second: u32, masks: &Masks) -> Result<(), LineFault>
        requires { length masks.now.items ≡ self.old.factor }
        ensures there { IfOk result (λ _. has_line self.old.lines second ≡ true) }
        ensures same_mask { IfOk result (λ _. same_masks self.old.factor masks.now (dirty_masks self.old.lines second)
            ≡ true) }
        ensures evicted { IfOk result (λ _. self.new ≡ after_evict self.old second) }
        ensures here { IfOk result (λ _. ChangesOnly self.old self.new second None) }
        ensures refused { IfErr result (λ fault. WideEvictRefusal self.old second masks.now fault) }
        ensures unchanged { OnErr result (self.new ≡ self.old) }
    {
        self.take_out(second, masks)
    }

    /// Whether the second level may give up its line on the block: where the first level has no line
    /// on any block of it, and no register of the first level holds one. `second` is a second-level block
    /// whose blocks all have numbers below 2^32.
    pub fn may_leave(&self, second: u32, inner: &Lines<One>, in_register: bool) -> bool
        requires fits { second < 0x1_0000_0000 / self.now.factor }
        ensures { result ≡ (are_absent self.now.factor inner.now second && not in_register) }
    {
        are_absent(self.factor(), inner, second) && !in_register
    }
}

/// Whether level one has no line on any block of the second-level block.
fn are_absent(factor: u32, inner: &Lines<One>, second: u32) -> bool
    requires factor { is_factor factor ≡ true }
    requires fits { second < 0x1_0000_0000 / factor }
    ensures { result ≡ are_absent factor inner.now second }
{
    for place in 0..factor {
        if inner.has(second * factor + place) {
            return false;
        }
    }
    true
}
