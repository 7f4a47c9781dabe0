//! The two levels of the cache, as types.

ghost use Rattle.std.specs.Prelude.{◌≡◌, ◌<◌, true, length};
ghost use Rattle.lf_rules.specs.Address.{set1_of};
ghost use Rattle.lf_rules.specs.Fits.{is_factor};

use crate::divisor::Divisor;
use crate::lines_two::{join_masks, masks_of, put_masks};
use lf_rules::{Masks, same_masks};

/// A level of the cache: what is dirty of its lines, and which set a block is in.
pub trait Level {
    ghost use Rattle.std.specs.Prelude.{◌≡◌, ℕ, ◌<◌, ◌≤◌, Bool, true, List, length};
    ghost use Rattle.lf_rules.specs.Fits.{is_factor};

    /// What is dirty of a line.
    type Dirty: Drop;

    // nothing of a line
    ghost clean: { Self.Dirty };

    // what is dirty of a line of which more is written
    ghost join: { Self.Dirty → Self.Dirty → Self.Dirty };

    // is this nothing more, where it is joined?
    ghost is_clean: { Self.Dirty → Bool };

    // nothing more leaves what is dirty as it is
    ghost join_clean: { (dirty more : Self.Dirty) → is_clean more ≡ true → join dirty more ≡ dirty };

    // have both, of so many first-level blocks, the same bytes?
    ghost same: { ℕ → Self.Dirty → Self.Dirty → Bool };

    // is this what is dirty of a line, where a block of level two has so many first-level blocks?
    ghost is_line: { ℕ → Self.Dirty → Bool };

    // how many words keep what is dirty of a line, where a block of level two has so many first-level blocks
    ghost width: { ℕ → ℕ };

    // what is dirty of a line by its words
    ghost dirty_of: { List ℕ → Self.Dirty };

    // the set of a block, of so many banks, first-level blocks in one of level two, and sets
    ghost set: { ℕ → ℕ → ℕ → ℕ → ℕ };

    // there are only so many sets
    ghost set_below: { (banks factor sets block : ℕ) → 0 < sets → set banks factor sets block < sets };

    /// Whether this is nothing.
    fn is_clean(dirty: &Self::Dirty) -> bool
        ensures { result ≡ is_clean dirty.now };

    /// More is dirty of a line.
    fn join(dirty: &mut Self::Dirty, more: &Self::Dirty)
        ensures value { dirty.new ≡ join dirty.old more.now }
        ensures line { (factor : ℕ) → is_line factor dirty.old ≡ true → is_line factor dirty.new ≡ true };

    /// Whether both have the same bytes, where a block of level two has so many first-level blocks.
    fn same(factor: u32, a: &Self::Dirty, b: &Self::Dirty) -> bool
        ensures { result ≡ same factor a.now b.now };

    /// How many words keep what is dirty of a line, where a block of level two has so many first-level blocks.
    fn width(factor: u32) -> usize
        ensures { result ≡ width factor };

    /// What is dirty of a line by its words.
    fn read(words: &[u64]) -> Self::Dirty
        requires some { 0 < length words.now }
        requires few { length words.now ≤ 4 }
        ensures { result ≡ dirty_of words.now };

    /// Puts what is dirty of a line into its words.
    fn write(words: &mut [u64], dirty: &Self::Dirty)
        requires some { 0 < length words.old }
        requires line { (factor : ℕ) × ((width factor ≡ length words.old) × (is_line factor dirty.now ≡ true)) }
        ensures count { length words.new ≡ length words.old }
        ensures value { dirty_of words.new ≡ dirty.now };

    /// The set of a block, where the divisors are at hand.
    fn set_by(banks: &Divisor, factor: &Divisor, sets: &Divisor, block: u32) -> u32
        requires some_banks { 0 < banks.now }
        requires some_sets { 0 < sets.now }
        requires factor { is_factor factor.now ≡ true }
        ensures { result ≡ set banks.now factor.now sets.now block };

    /// The set of a block.
    fn set_of(banks: u32, factor: u32, sets: u32, block: u32) -> u32
        requires some_banks { 0 < banks }
        requires some_sets { 0 < sets }
        requires factor { is_factor factor ≡ true }
        ensures { result ≡ set banks factor sets block }
    {
        Self::set_by(
            &Divisor::of(banks),
            &Divisor::of(factor),
            &Divisor::of(sets),
            block,
        )
    }

    // there are some words, and few of them
    ghost width_fits: { (factor : ℕ) → is_factor factor ≡ true → (0 < width factor) × (width factor ≤ 4) };
}

/// The first level, which the ports' requests look at.
#[derive(Clone, Copy, PartialEq, Eq)]
pub struct One;

/// The second level, which holds each block that the first holds. Its blocks are wide: each has so many
/// first-level blocks, and its lines have a mask for each of them.
#[derive(Clone, Copy, PartialEq, Eq)]
pub struct Two;

impl Level for One {
    ghost use Rattle.std.specs.Prelude.{bit_or, ◌==◌, slice_index};
    ghost use Rattle.std.specs.Int.Bits.{or_zero_r};
    ghost use Rattle.std.proofs.Common.{ap, ◌∙◌, eqb-true, arith};
    ghost use Rattle.lf_levels.specs.LineTable.{is_line1};
    ghost use Rattle.lf_rules.specs.Address.{set1_of};
    ghost use Rattle.std.proofs.lemmas.Nat.{mod_below};

    type Dirty = u64;

    ghost clean = { 0 };

    ghost join = { bit_or };

    ghost is_clean = { λ mask. mask == 0 };

    ghost join_clean = { λ mask more none. ap (bit_or mask) (eqb-true more 0 none) ∙ or_zero_r mask };

    ghost same = { λ factor a b. a == b };

    ghost is_line = { is_line1 };

    ghost width = { λ factor. 1 };

    ghost width_fits = { λ factor is. (Prim.omega arith, Prim.omega arith) };

    ghost dirty_of = { λ words. slice_index words 0 };

    ghost set = { set1_of };

    ghost set_below = { λ banks factor sets block some. mod_below _ sets some };

    fn is_clean(dirty: &u64) -> bool {
        *dirty == 0
    }

    fn join(dirty: &mut u64, more: &u64) {
        *dirty |= *more;
    }

    fn same(_factor: u32, a: &u64, b: &u64) -> bool {
        *a == *b
    }

    fn width(_factor: u32) -> usize {
        1
    }

    fn read(words: &[u64]) -> u64 {
        words[0]
    }

    fn write(words: &mut [u64], dirty: &u64) {
        words[0] = *dirty;
    }

    fn set_by(banks: &Divisor, factor: &Divisor, sets: &Divisor, block: u32) -> u32 {
        set1_of(banks, factor, sets, block)
    }
}

/// The set of a block in level one.
fn set1_of(banks: &Divisor, factor: &Divisor, sets: &Divisor, block: u32) -> u32
    requires some_banks { 0 < banks.now }
    requires factor { is_factor factor.now ≡ true }
    ensures { result ≡ set1_of banks.now factor.now sets.now block }
{
    let second = banks.quotient(factor.quotient(block));
    sets.remainder(second * factor.get() + factor.remainder(block))
}

impl Level for Two {
    ghost use Rattle.lf_levels.specs.LineTable.{wide_set, joined, is_line2};
    ghost use Rattle.lf_levels.specs.CleanMasks.{are_clean, joined_clean};
    ghost use Rattle.lf_levels.specs.WayWords.{masks_of};
    ghost use Rattle.std.proofs.Common.{arith};
    ghost use Rattle.std.proofs.lemmas.Bool.Decides.{nat_tests};
    ghost use Rattle.lf_rules.specs.Lines.{no_masks, same_masks};
    ghost use Rattle.std.proofs.lemmas.Nat.{mod_below};

    type Dirty = Masks;

    ghost clean = { no_masks };

    ghost join = { λ dirty more. record { items = joined dirty.items more.items } };

    ghost is_clean = { λ masks. are_clean masks.items };

    ghost join_clean = { λ masks more none. λ i. record { items = joined_clean masks.items more.items none i } };

    ghost same = { same_masks };

    ghost is_line = { is_line2 };

    ghost width = { λ factor. factor };

    ghost width_fits = { λ factor is. (Prim.grind (arith, nat_tests), Prim.grind (arith, nat_tests)) };

    ghost dirty_of = { masks_of };

    ghost set = { wide_set };

    ghost set_below = { λ banks factor sets block some. mod_below _ sets some };

    fn is_clean(dirty: &Masks) -> bool {
        dirty.iter().all(|mask| mask.0 == 0)
    }

    fn join(dirty: &mut Masks, more: &Masks) {
        join_masks(dirty, more);
    }

    fn same(factor: u32, a: &Masks, b: &Masks) -> bool {
        same_masks(factor, a, b)
    }

    fn width(factor: u32) -> usize {
        factor as usize
    }

    fn read(words: &[u64]) -> Masks {
        masks_of(words)
    }

    fn write(words: &mut [u64], dirty: &Masks) {
        put_masks(words, dirty);
    }

    fn set_by(banks: &Divisor, _factor: &Divisor, sets: &Divisor, block: u32) -> u32 {
        sets.remainder(banks.quotient(block))
    }
}
