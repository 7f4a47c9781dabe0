//! How many lines each set of a level has.

ghost use Rattle.std.specs.Prelude.{◌≡◌, ◌+◌, ◌-◌, ◌<◌, length, slice_index, IfOk};
ghost use Rattle.lf_rules.specs.State.{update};

use lf_rules::NoMemory;
use std::alloc::Global;

/// So many sets, which have no line. `NoMemory` where there was no room for them.
pub fn no_lines(alloc: Global, sets: u32) -> Result<Vec<u32>, NoMemory>
    ensures sets { IfOk result (λ counts. length counts.items ≡ sets) }
    ensures counts { IfOk result (λ counts. slice_index counts.items ≡ (λ _. 0)) }
{
    Ok(vec![in alloc; 0; sets as usize]?)
}

/// The lines of a set.
pub fn lines_in(counts: &Vec<u32>, set: usize) -> u32
    requires { set < length counts.now.items }
    ensures { result ≡ slice_index counts.now.items set }
{
    counts[set]
}

/// A set has one line more.
pub fn add_line(counts: &mut Vec<u32>, set: usize)
    requires inside { set < length counts.old.items }
    requires fits { slice_index counts.old.items set + 1 < 0x1_0000_0000 }
    ensures counts { slice_index counts.new.items ≡ update (slice_index counts.old.items) set
        (slice_index counts.old.items set + 1) }
    ensures sets { length counts.new.items ≡ length counts.old.items }
{
    counts[set] += 1;
}

/// A set has one line fewer.
pub fn take_line(counts: &mut Vec<u32>, set: usize)
    requires { set < length counts.old.items }
    ensures counts { slice_index counts.new.items ≡ update (slice_index counts.old.items) set
        (slice_index counts.old.items set - 1) }
    ensures sets { length counts.new.items ≡ length counts.old.items }
{
    counts[set] = counts[set].saturating_sub(1);
}
