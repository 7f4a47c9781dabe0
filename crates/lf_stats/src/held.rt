//! Which registers are held.

ghost use Rattle.std.specs.Prelude.{◌≡◌, ℕ, ◌+◌, ◌<◌, ◌^◌, List, [], ◌∷◌, ◌++◌, not, ◌==◌, filter};
ghost use Rattle.std.specs.Prelude.{length, Some, unwrap_or};
ghost use Rattle.std.specs.Prelude.{OnOk, if◌then◌else◌};
ghost use Rattle.std.specs.BTreeMap.{get};
ghost use Rattle.std.specs.Ordering.{nat_cmp};
ghost use Rattle.lf_stats.specs.Standing.{AreTimes, items_at};
ghost use Rattle.lf_stats.specs.Statistics.{distinct};

use lf_rules::NoMemory;
use std::alloc::Global;
use std::collections::BTreeMap;
use std::marker::Model;

/// How often each register is named.
#[derive(Drop)]
struct Times(BTreeMap<u16, u32>);

impl Times {
    /// The register is named once more.
    fn add(&mut self, register: u16) -> Result<(), NoMemory>
        requires few { unwrap_or (get nat_cmp self.old.0 register) 0 < 2 ^ 29 }
        ensures { OnOk result ((registers : List ℕ) → AreTimes self.old registers →
            AreTimes self.new (register ∷ registers)) }
    {
        let times = self.0.get(&register).copied().unwrap_or(0);
        let _ = self.0.insert(register, times + 1)?;
        Ok(())
    }

    /// The register is named once less.
    fn take(&mut self, register: u16)
        ensures { (registers : List ℕ) → AreTimes self.old (register ∷ registers) → AreTimes self.new registers }
    {
        let times = self.0.get(&register).copied().unwrap_or(0);
        if times < 2 {
            let _ = self.0.remove(&register);
        } else if let Some(times) = self.0.get_mut(&register) {
            *times -= 1;
        }
    }

    /// Each of these is named once less.
    fn take_all(&mut self, registers: &[u16])
        ensures { (others : List ℕ) → AreTimes self.old (registers.now ++ others) → AreTimes self.new others }
    {
        for register in registers {
            self.take(*register);
        }
    }
}

/// Names the register behind those of the block.
fn push_at(
    by_block: &mut BTreeMap<u64, Vec<u16>>,
    alloc: Global,
    block: u64,
    register: u16,
) -> Result<(), NoMemory>
    ensures { OnOk result ((other : ℕ) → items_at by_block.new other
        ≡ (if block == other then items_at by_block.old other ++ register ∷ [] else items_at by_block.old other)) }
{
    if let Some(registers) = by_block.get_mut(&block) {
        registers.push(register)?;
        return Ok(());
    }
    let registers = vec![in alloc; register]?;
    let _ = by_block.insert(block, registers)?;
    Ok(())
}

/// The registers that are held.
#[derive(Drop)]
pub(crate) struct Held {
    /// For each block the registers that its misses named, in their order.
    by_block: BTreeMap<u64, Vec<u16>>,
    /// How often these name each register.
    times: Times,
}

impl Model for Held {
    ghost use Rattle.lf_stats.specs.Standing.{Holding};

    ghost Value = { Holding };

    ghost view = { λ h. record { by_block = h.by_block.entries; times = h.times.0.entries } };
}

impl Held {
    ghost use Rattle.lf_stats.specs.Standing.{IsHeld, named, registers_of};

    /// Nothing is held.
    pub fn new(alloc: Global) -> Self
        ensures { IsHeld result [] }
    {
        Held {
            by_block: BTreeMap::new(alloc),
            times: Times(BTreeMap::new(alloc)),
        }
    }

    /// Holds the register for the block.
    pub fn hold(&mut self, alloc: Global, block: u64, register: u16) -> Result<(), NoMemory>
        requires few { named self.old register < 2 ^ 29 }
        ensures { OnOk result ((holds : List (ℕ × ℕ)) → IsHeld self.old holds →
            IsHeld self.new (holds ++ (block, register) ∷ [])) }
    {
        push_at(&mut self.by_block, alloc, block, register)?;
        self.times.add(register)?;
        Ok(())
    }

    /// Ends all holds for the block.
    pub fn release(&mut self, block: u64)
        ensures { (holds : List (ℕ × ℕ)) → IsHeld self.old holds →
            IsHeld self.new (filter (λ h. not (h.0 == block)) holds) }
    {
        if let Some(registers) = self.by_block.remove(&block) {
            self.times.take_all(registers.as_slice());
        }
    }

    /// How many registers are held.
    pub fn distinct(&self) -> u32
        requires few { length self.now.times < 2 ^ 32 }
        ensures { (holds : List (ℕ × ℕ)) → IsHeld self.now holds → result ≡ distinct (registers_of holds) }
    {
        self.times.0.len() as u32
    }
}
