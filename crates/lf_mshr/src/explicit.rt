//! Explicitly addressed files: registers with entries of their own offsets.

ghost use Rattle.std.specs.Prelude.{◌≡◌, ◌⊎◌, ◌*◌, ◌<◌, ◌≤◌, ◌++◌, ◌∷◌, [], count_by, ◌==◌, nat_lt, true, false, ℕ};
ghost use Rattle.std.specs.Prelude.{IfSome, IfNone};
ghost use Rattle.lf_rules.specs.Registers.{holds, holds_in, is_free, has_room};
ghost use Rattle.lf_rules.specs.declared.shape.OrgShape.TheVariants as shape;
ghost use Rattle.lf_mshr.specs.Bounds.{IsWithin};
ghost use Rattle.lf_mshr.specs.Index.{are_in_rows};
ghost use Rattle.lf_mshr.specs.Places.{held_of};
ghost use Rattle.lf_mshr.specs.RegisterFile.{held_item};

use crate::fault::RegisterFault;
use crate::organisation::Organisation;
use crate::registers::Registers;
use crate::target::Target;
use crate::targets::Targets;
use lf_rules::{Mask, NoMemory, OrgShape};
use std::alloc::Global;
use std::marker::PhantomData;

/// The organisation whose registers each hold one block and a number of targets of it, at any
/// positions. At most one register holds a block.
pub struct Explicit<T>(PhantomData<T>);

/// The registers of an explicitly addressed file. Each has as many places in a row as it has entries, and
/// uses them from the first on.
#[derive(Drop)]
pub struct ExplicitFile<T: Target> {
    entries: u32,
    destinations: u16,
    registers: Registers<T>,
    ghost all: { registers.places.places ≡ registers.registers * entries },
    ghost within: { IsWithin registers.registers entries (held_of registers.places.order) },
    ghost rows: { are_in_rows entries registers.places.order ≡ true },
    ghost some_entry: { 1 ≤ entries },
    ghost limit: { registers.registers * entries ≤ 4096 },
}

impl<T: Target> ExplicitFile<T> {
    /// Whether the register has an entry left.
    fn has_entry(&self, register: u32) -> bool
        requires { register < self.now.registers.registers }
        ensures { result ≡ nat_lt (count_by (λ h. h.register == register) (held_of self.now.registers.places.order))
            self.now.entries }
    {
        self.registers.count(register) < self.entries
    }

    /// Whether a register takes a target of the block, which this register holds, or none.
    fn has_room(&self, holder: Option<u16>, _block: u32) -> bool
        requires some { IfSome holder (λ r. holds_in (held_of self.now.registers.places.order) r _block ≡ true) }
        requires none { IfNone holder (holds (held_of self.now.registers.places.order) _block ≡ false) }
        ensures { (destination at : ℕ) → result ≡ has_room (shape.Explicit self.now.registers.registers
            self.now.entries)
            self.now.destinations T.position (held_of self.now.registers.places.order) _block destination at }
    {
        match holder {
            Some(register) => self.has_entry(u32::from(register)),
            None => self.registers.some_is_free(),
        }
    }

    /// Appends a target of a register that is free or holds the block, and that has an entry left.
    fn append(&mut self, register: u16, block: u32, target: T)
        requires exists { register < self.old.registers.registers }
        requires entry { count_by (λ h. h.register == register) (held_of self.old.registers.places.order) <
            self.old.entries }
        requires own { (is_free (held_of self.old.registers.places.order) register ≡ true)
            ⊎ (holds_in (held_of self.old.registers.places.order) register block ≡ true) }
        requires apart { (holds (held_of self.old.registers.places.order) block ≡ false)
            ⊎ (holds_in (held_of self.old.registers.places.order) register block ≡ true) }
        ensures items { held_of self.new.registers.places.order ≡ held_of self.old.registers.places.order
            ++ held_item register block target ∷ [] }
        ensures registers { self.new.registers.registers ≡ self.old.registers.registers }
        ensures entries { self.new.entries ≡ self.old.entries }
        ensures destinations { self.new.destinations ≡ self.old.destinations }
    {
        let row = u32::from(register);
        let place = row * self.entries + self.registers.count(row);
        self.registers.push(register, place as u16, block, target);
    }
}

impl<T: Target> Organisation for Explicit<T> {
    ghost use Rattle.std.specs.Prelude.{false, refl};
    ghost use Rattle.lf_mshr.specs.RegisterFile.{explicit_file};
    ghost use Rattle.lf_mshr.specs.Names.{is_explicit};

    type Target = T;

    type File = ExplicitFile<T>;

    const SHARES: bool = false;

    ghost SHARES = { false };

    ghost names = { is_explicit };

    ghost seen = { λ file. explicit_file file.registers.registers file.entries file.destinations
        (held_of file.registers.places.order) };

    ghost shares_as_seen = { λ file. refl };

    ghost holds_once = { λ file e. file.registers.once };

    fn new(
        alloc: Global,
        organisation: &OrgShape,
        destinations: u16,
    ) -> Result<ExplicitFile<T>, NoMemory> {
        let OrgShape::Explicit { registers, entries } = *organisation else {
            unreachable!()
        };
        let registers = Registers::new(alloc, registers, (registers * entries) as u16)?;
        Ok(ExplicitFile {
            entries,
            destinations,
            registers,
        })
    }

    fn room(file: &ExplicitFile<T>, block: u32, target: &T) -> bool {
        Self::room_in(file, file.registers.find(block), block, target)
    }

    fn room_in(file: &ExplicitFile<T>, holder: Option<u16>, block: u32, _target: &T) -> bool {
        file.has_room(holder, block)
    }

    fn fresh_fault(
        file: &ExplicitFile<T>,
        register: u16,
        _block: u32,
        _target: &T,
    ) -> Option<RegisterFault> {
        if u32::from(register) >= file.registers.registers {
            return Some(RegisterFault::Range);
        }
        if !file.registers.is_free(u32::from(register)) {
            return Some(RegisterFault::Busy);
        }
        None
    }

    fn merge_fault(
        file: &ExplicitFile<T>,
        register: u16,
        block: u32,
        _target: &T,
    ) -> Option<RegisterFault> {
        // A merge that is right asks for no search.
        let there = u32::from(register) < file.registers.registers;
        if there && file.registers.holds_in(u32::from(register), block) {
            if !file.has_entry(u32::from(register)) {
                return Some(RegisterFault::Full);
            }
            return None;
        }
        if !file.registers.holds(block) {
            return Some(RegisterFault::NotInFlight);
        }
        if !there {
            return Some(RegisterFault::Range);
        }
        Some(RegisterFault::Wrong)
    }

    fn merge_fault_in(
        file: &ExplicitFile<T>,
        holder: Option<u16>,
        register: u16,
        _block: u32,
        _target: &T,
    ) -> Option<RegisterFault> {
        let Some(holder) = holder else {
            return Some(RegisterFault::NotInFlight);
        };
        if register != holder {
            if u32::from(register) >= file.registers.registers {
                return Some(RegisterFault::Range);
            }
            return Some(RegisterFault::Wrong);
        }
        if !file.has_entry(u32::from(register)) {
            return Some(RegisterFault::Full);
        }
        None
    }

    fn place(file: &mut ExplicitFile<T>, register: u16, block: u32, target: T) {
        file.append(register, block, target);
    }

    fn release_into(file: &mut ExplicitFile<T>, block: u32, targets: &mut Targets<T>) {
        match file.registers.find(block) {
            Some(holder) => Self::release_of(file, holder, block, targets),
            None => targets.clear(),
        }
    }

    fn release_of(file: &mut ExplicitFile<T>, holder: u16, block: u32, targets: &mut Targets<T>) {
        file.registers.release_of(holder, block, targets);
    }

    fn store_bytes(file: &ExplicitFile<T>, block: u32) -> Mask {
        file.registers.store_bytes(block)
    }

    fn holds(file: &ExplicitFile<T>, block: u32) -> bool {
        file.registers.holds(block)
    }
}
