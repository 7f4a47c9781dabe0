//! Registers that each hold one block, and of which none shares its block: a word of those in use, the
//! block of each, how many targets it has and the bytes that its stores write, and the places of their
//! targets.

ghost use Rattle.std.specs.Prelude.{◌≡◌, ◌⊎◌, ◌<◌, ◌≤◌, ◌++◌, ◌∷◌, [], ◌==◌, map, count_by};
ghost use Rattle.std.specs.Prelude.{true, false, IfOk, IfSome, IfNone};
ghost use Rattle.std.specs.List.{list_any, range_with_len};
ghost use Rattle.lf_rules.specs.Registers.{holds, holds_in, is_free, targets_of};
ghost use Rattle.lf_rules.specs.Sharing.{HoldsOnce};
ghost use Rattle.lf_mshr.specs.Bounds.{IsBelow};
ghost use Rattle.lf_mshr.specs.Index.{IsIndexed, IsCounted, IsStored, stored_bytes};
ghost use Rattle.lf_mshr.specs.Places.{held_of, left_of, is_taken, no_places};
ghost use Rattle.lf_mshr.specs.RegisterFile.{held_item, released_pair};

use crate::held::{Held, store_mask};
use crate::places::Places;
use crate::target::Target;
use crate::targets::Targets;
use crate::words::{has_bit, marks_of, reach};
use lf_rules::{Mask, NoMemory};
use std::alloc::Global;

/// Registers that each hold one block.
#[derive(Drop)]
pub struct Registers<T: Target> {
    pub registers: u32,
    /// A bit for each register in use.
    used: u64,
    /// The block of each register in use.
    blocks: Vec<u32>,
    /// How many targets each register holds.
    counts: Vec<u32>,
    /// Of each register the bytes that its waiting stores write, and none of a free one.
    stores: Vec<u64>,
    pub places: Places<T>,
    ghost index: { IsIndexed registers used blocks.items (held_of places.order) },
    ghost counted: { IsCounted registers counts.items (held_of places.order) },
    ghost stored: { IsStored T.is_store T.bytes registers stores.items (held_of places.order) },
    ghost below: { IsBelow registers (held_of places.order) },
    ghost once: { HoldsOnce (held_of places.order) },
}

impl<T: Target> Registers<T> {
    /// Free registers with so many places together.
    pub fn new(alloc: Global, registers: u32, places: u16) -> Result<Registers<T>, NoMemory>
        requires registers { registers ≤ 64 }
        requires places { places ≤ 4096 }
        ensures { IfOk result (λ r. (r.registers ≡ registers) × (r.places ≡ no_places places)) }
    {
        let blocks = vec![in alloc; 0; registers as usize]?;
        let counts = vec![in alloc; 0; registers as usize]?;
        let stores = vec![in alloc; 0; registers as usize]?;
        let places = Places::new(alloc, places)?;
        Ok(Registers {
            registers,
            used: 0,
            blocks,
            counts,
            stores,
            places,
        })
    }

    pub fn is_free(&self, register: u32) -> bool
        requires { register < self.now.registers }
        ensures { result ≡ is_free (held_of self.now.places.order) register }
    {
        !has_bit(self.used, register)
    }

    /// Whether the register holds the block.
    pub fn holds_in(&self, register: u32, block: u32) -> bool
        requires { register < self.now.registers }
        ensures { result ≡ holds_in (held_of self.now.places.order) register block }
    {
        self.blocks[register as usize] == block && has_bit(self.used, register)
    }

    /// How many targets the register holds.
    pub fn count(&self, register: u32) -> u32
        requires { register < self.now.registers }
        ensures { result ≡ count_by (λ h. h.register == register) (held_of self.now.places.order) }
    {
        self.counts[register as usize]
    }

    /// Whether a register is free.
    pub fn some_is_free(&self) -> bool
        ensures { result ≡ list_any (is_free (held_of self.now.places.order)) (range_with_len 0 self.now.registers) }
    {
        (0..self.registers).any(|r| self.is_free(r))
    }

    /// The register that holds the block.
    pub fn find(&self, block: u32) -> Option<u16>
        ensures some { IfSome result (λ r. (r < self.now.registers) ×
            (holds_in (held_of self.now.places.order) r block ≡ true)) }
        ensures none { IfNone result (holds (held_of self.now.places.order) block ≡ false) }
    {
        let count = reach(self.used) as usize;
        let holding = marks_of(&self.blocks[..count], block) & self.used;
        if holding == 0 {
            return None;
        }
        Some(holding.trailing_zeros() as u16)
    }

    /// Whether a register holds the block.
    pub fn holds(&self, block: u32) -> bool
        ensures { result ≡ holds (held_of self.now.places.order) block }
    {
        self.find(block).is_some()
    }

    /// The bytes that the block's waiting stores write.
    pub fn store_bytes(&self, block: u32) -> Mask
        ensures { result.0 ≡ stored_bytes T.is_store T.bytes (targets_of (held_of self.now.places.order) block) }
    {
        match self.find(block) {
            Some(register) => Mask(self.stores[usize::from(register)]),
            None => Mask(0),
        }
    }

    /// Puts a target of the block at a place of the register, which is free or holds the block.
    pub fn push(&mut self, register: u16, place: u16, block: u32, target: T)
        requires exists { register < self.old.registers }
        requires there { place < self.old.places.places }
        requires free { is_taken self.old.places.order place ≡ false }
        requires own { (is_free (held_of self.old.places.order) register ≡ true)
            ⊎ (holds_in (held_of self.old.places.order) register block ≡ true) }
        requires apart { (holds (held_of self.old.places.order) block ≡ false)
            ⊎ (holds_in (held_of self.old.places.order) register block ≡ true) }
        ensures order { self.new.places.order ≡ self.old.places.order ++ (place, held_item register block target) ∷ [] }
        ensures places { self.new.places.places ≡ self.old.places.places }
        ensures registers { self.new.registers ≡ self.old.registers }
    {
        let written = store_mask(&target);
        let item = Held {
            register,
            block,
            target,
        };
        self.used |= 1 << register;
        self.blocks[usize::from(register)] = block;
        self.places.push(place, item);
        self.counts[usize::from(register)] += 1;
        self.stores[usize::from(register)] |= written;
    }

    /// Moves the targets of the block, which this register holds, into a list, in place of what it had.
    pub fn release_of(&mut self, register: u16, block: u32, targets: &mut Targets<T>)
        requires exists { register < self.old.registers }
        requires holding { holds_in (held_of self.old.places.order) register block ≡ true }
        ensures targets { targets.new ≡ map released_pair (targets_of (held_of self.old.places.order) block) }
        ensures order { self.new.places.order ≡ left_of self.old.places.order block }
        ensures places { self.new.places.places ≡ self.old.places.places }
        ensures registers { self.new.registers ≡ self.old.registers }
    {
        let count = self.counts[usize::from(register)];
        self.used &= !(1 << register);
        self.counts[usize::from(register)] = 0;
        self.stores[usize::from(register)] = 0;
        self.places.release_into(block, count as usize, targets);
    }
}
