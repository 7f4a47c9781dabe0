//! A happy call of each function.

ghost use Rattle.std.specs.Prelude.{◌≡◌, ◌<◌, ◌/◌, true, length, IfOk};
ghost use Rattle.lf_rules.specs.Fits.{is_factor};
ghost use Rattle.lf_rules.specs.InRange.{IsFrom};

use lf_levels::{Level, LineFault, Lines, One, Two};
use lf_rules::{Mask, Masks, clean_masks};
use std::alloc::Global;
use std::process::Abort;
use std::test::Fail;
use trace_samples::memory_ran_out;

/// An empty table.
fn table<L: Level>(
    alloc: Global,
    sets: u32,
    ways: u32,
    banks: u32,
    factor: u32,
) -> Result<Lines<L>, Fail>
    requires sets { IsFrom 1 4096 sets }
    requires ways { IsFrom 1 16 ways }
    requires banks { IsFrom 1 16 banks }
    requires factor { is_factor factor ≡ true }
    ensures { IfOk result (λ lines. lines.factor ≡ factor) }
{
    let Ok(lines) = Lines::new(alloc, sets, ways, banks, factor) else {
        return Err(memory_ran_out());
    };
    Ok(lines)
}

/// Fails unless a table has no line on the block, and answers so when it is filled.
fn assert_fill(
    rt: &impl Abort,
    lines: &mut Lines<One>,
    block: u32,
    mask: Mask,
    answer: Result<(), LineFault>,
) {
    assert!(rt; !lines.has(block));
    assert_eq!(rt; lines.fill(block, mask), answer);
}

/// Fails unless a table of level two has no line on the block, and answers so when it is filled.
fn assert_fill_two(
    rt: &impl Abort,
    lines: &mut Lines<Two>,
    second: u32,
    masks: Masks,
    answer: Result<(), LineFault>,
)
    requires { length masks.items ≡ lines.old.factor }
    ensures { lines.new.factor ≡ lines.old.factor }
{
    assert!(rt; !lines.has(second));
    assert_eq!(rt; lines.fill(second, masks), answer);
}

/// Fails unless a line that gains dirty bytes has these then.
fn assert_mark(rt: &impl Abort, lines: &mut Lines<One>, block: u32, more: Mask, dirty: Mask) {
    assert!(rt; lines.has(block));
    lines.mark(block, more);
    assert_eq!(rt; lines.dirty(block), Some(dirty));
}

/// Fails unless second-level block 5 has these masks after it gained bytes at one place.
fn assert_mark_at(rt: &impl Abort, lines: &mut Lines<Two>, place: u32, more: Mask, dirty: Masks)
    requires { place < lines.old.factor }
    ensures { lines.new.factor ≡ lines.old.factor }
{
    assert!(rt; lines.has(5));
    lines.mark_at(5, place, more);
    assert!(rt; lines.dirty(5) == Some(dirty));
}

/// The masks of a second-level block of two blocks.
fn two_masks(first: u64, second: u64) -> Masks
    ensures { length result.items ≡ 2 }
{
    let mut masks = Masks::new();
    masks.push(Mask(first));
    masks.push(Mask(second));
    masks
}

#[test]
fn lines_come_and_go(rt: HostRuntime) -> Result<(), Fail> {
    let mut lines: Lines<One> = table(rt.alloc(), 2, 2, 2, 1)?;
    assert_fill(&rt, &mut lines, 0, Mask(3), Ok(()));
    assert_mark(&rt, &mut lines, 0, Mask(4), Mask(7));
    assert_eq!(rt; lines.evict(0, Mask(7)), Ok(()));
    assert!(rt; !lines.has(0));
    Ok(())
}

/// Two sets of two ways in one of two banks: the blocks 0, 4 and 8 are in one set.
#[test]
fn a_set_has_as_many_lines_as_ways(rt: HostRuntime) -> Result<(), Fail> {
    let mut lines: Lines<Two> = table(rt.alloc(), 2, 2, 2, 1)?;
    assert_fill_two(&rt, &mut lines, 0, clean_masks(1), Ok(()));
    assert!(rt; !lines.full(8));
    assert_fill_two(&rt, &mut lines, 4, clean_masks(1), Ok(()));
    assert!(rt; lines.full(8));
    Ok(())
}

/// The greatest table: the 16 blocks are in set 0, as the block after them; block 16 is in set 1.
#[test]
fn lines_of_many_sets(rt: HostRuntime) -> Result<(), Fail> {
    let mut lines: Lines<One> = table(rt.alloc(), 4096, 16, 16, 1)?;
    for k in 0..16 {
        assert_fill(&rt, &mut lines, 65_536 * k, Mask(0), Ok(()));
    }
    let full = Err(LineFault::SetFull);
    assert_fill(&rt, &mut lines, 1_048_576, Mask(0), full);
    assert_fill(&rt, &mut lines, 16, Mask(0), Ok(()));
    Ok(())
}

/// Fails unless second-level block 5 may leave, but not while a register has it, until level one has this block of it.
fn assert_stays<T: Abort + AllocGlobal>(
    rt: &T,
    factor: u32,
    masks: Masks,
    block: u32,
) -> Result<(), Fail>
    requires factor { is_factor factor ≡ true }
    requires fits { 5 < 0x1_0000_0000 / factor }
    requires count { length masks.items ≡ factor }
{
    let mut inner: Lines<One> = table(rt.alloc(), 1, 1, 1, factor)?;
    let mut outer: Lines<Two> = table(rt.alloc(), 1, 2, 1, factor)?;
    assert_fill_two(rt, &mut outer, 5, masks, Ok(()));
    assert!(rt; outer.may_leave(5, &inner, false));
    assert!(rt; !outer.may_leave(5, &inner, true));
    assert_fill(rt, &mut inner, block, Mask(0), Ok(()));
    assert!(rt; !outer.may_leave(5, &inner, false));
    Ok(())
}

#[test]
fn level_two_keeps_what_level_one_holds(rt: HostRuntime) -> Result<(), Fail> {
    assert_stays(&rt, 1, clean_masks(1), 5)
}

/// A mark at one place leaves the mask at the other.
#[test]
fn one_mask_of_a_wide_line_gains_bytes(rt: HostRuntime) -> Result<(), Fail> {
    let mut outer: Lines<Two> = table(rt.alloc(), 1, 2, 1, 2)?;
    assert_fill_two(&rt, &mut outer, 5, two_masks(1, 2), Ok(()));
    assert_mark_at(&rt, &mut outer, 1, Mask(4), two_masks(1, 6));
    Ok(())
}
