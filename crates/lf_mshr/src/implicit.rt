//! Implicitly addressed files: registers with a field for each position in a block.

ghost use Rattle.std.specs.Prelude.{◌≡◌, ◌⊎◌, ◌+◌, ◌*◌, ◌<◌, ◌≤◌, ◌++◌, ◌∷◌, [], ◌==◌, true, false, ℕ};
ghost use Rattle.std.specs.Prelude.{IfSome, IfNone};
ghost use Rattle.std.specs.List.{list_all};
ghost use Rattle.lf_rules.specs.Registers.{holds, holds_in, is_free, takes, has_room};
ghost use Rattle.lf_rules.specs.declared.shape.OrgShape.TheVariants as shape;
ghost use Rattle.lf_mshr.specs.Places.{held_of};
ghost use Rattle.lf_mshr.specs.RegisterFile.{held_item};

use crate::fault::RegisterFault;
use crate::organisation::Organisation;
use crate::registers::Registers;
use crate::target::Target;
use crate::targets::Targets;
use lf_rules::{Mask, NoMemory, OrgShape};
use std::alloc::Global;
use std::marker::PhantomData;

/// The organisation whose registers each hold one block and have a field for each position in it. At
/// most one register holds a block.
pub struct Implicit<T>(PhantomData<T>);

/// The positions in a block, each with a field of its own in every register.
const FIELDS: u16 = 8;

/// The registers of an implicitly addressed file. Each has eight places in a row, one for each position.
#[derive(Drop)]
pub struct ImplicitFile<T: Target> {
    destinations: u16,
    registers: Registers<T>,
    ghost all: { registers.places.places ≡ registers.registers * 8 },
    ghost own: { list_all (λ q. q.0 == q.1.register * 8 + T.position q.1.target) registers.places.order ≡ true },
    ghost limit: { registers.registers ≤ 64 },
}

impl<T: Target> ImplicitFile<T> {
    /// Whether the register's field at this position is not in use.
    fn has_field(&self, register: u32, at: u8) -> bool
        requires register { register < self.now.registers.registers }
        requires eight { at < 8 }
        ensures { result ≡ takes (shape.Implicit self.now.registers.registers) T.position
            (held_of self.now.registers.places.order) register at }
    {
        let place = register as u16 * FIELDS + u16::from(at);
        !self.registers.places.is_taken(place)
    }

    /// Whether a register takes a target at this position of the block, which this register holds, or none.
    fn has_room(&self, holder: Option<u16>, _block: u32, at: u8) -> bool
        requires eight { at < 8 }
        requires some { IfSome holder (λ r. holds_in (held_of self.now.registers.places.order) r _block ≡ true) }
        requires none { IfNone holder (holds (held_of self.now.registers.places.order) _block ≡ false) }
        ensures { (destination : ℕ) → result ≡ has_room (shape.Implicit self.now.registers.registers)
            self.now.destinations T.position (held_of self.now.registers.places.order) _block destination at }
    {
        match holder {
            Some(register) => self.has_field(u32::from(register), at),
            None => self.registers.some_is_free(),
        }
    }

    /// Appends a target of a register that is free or holds the block, and that has its field left.
    fn append(&mut self, register: u16, block: u32, target: T)
        requires exists { register < self.old.registers.registers }
        requires field { takes (shape.Implicit self.old.registers.registers)
            T.position (held_of self.old.registers.places.order) register (T.position target) ≡ true }
        requires own { (is_free (held_of self.old.registers.places.order) register ≡ true)
            ⊎ (holds_in (held_of self.old.registers.places.order) register block ≡ true) }
        requires apart { (holds (held_of self.old.registers.places.order) block ≡ false)
            ⊎ (holds_in (held_of self.old.registers.places.order) register block ≡ true) }
        ensures items { held_of self.new.registers.places.order ≡ held_of self.old.registers.places.order
            ++ held_item register block target ∷ [] }
        ensures registers { self.new.registers.registers ≡ self.old.registers.registers }
        ensures destinations { self.new.destinations ≡ self.old.destinations }
    {
        let place = register * FIELDS + u16::from(target.position());
        self.registers.push(register, place, block, target);
    }
}

impl<T: Target> Organisation for Implicit<T> {
    ghost use Rattle.std.specs.Prelude.{false, refl};
    ghost use Rattle.lf_mshr.specs.RegisterFile.{implicit_file};
    ghost use Rattle.lf_mshr.specs.Names.{is_implicit};

    type Target = T;

    type File = ImplicitFile<T>;

    const SHARES: bool = false;

    ghost SHARES = { false };

    ghost names = { is_implicit };

    ghost seen = { λ file. implicit_file file.registers.registers file.destinations
        (held_of file.registers.places.order) };

    ghost shares_as_seen = { λ file. refl };

    ghost holds_once = { λ file e. file.registers.once };

    fn new(
        alloc: Global,
        organisation: &OrgShape,
        destinations: u16,
    ) -> Result<ImplicitFile<T>, NoMemory> {
        let OrgShape::Implicit { registers } = *organisation else {
            unreachable!()
        };
        let registers = Registers::new(alloc, registers, registers as u16 * FIELDS)?;
        Ok(ImplicitFile {
            destinations,
            registers,
        })
    }

    fn room(file: &ImplicitFile<T>, block: u32, target: &T) -> bool {
        Self::room_in(file, file.registers.find(block), block, target)
    }

    fn room_in(file: &ImplicitFile<T>, holder: Option<u16>, block: u32, target: &T) -> bool {
        file.has_room(holder, block, target.position())
    }

    fn fresh_fault(
        file: &ImplicitFile<T>,
        register: u16,
        _block: u32,
        _target: &T,
    ) -> Option<RegisterFault> {
        if u32::from(register) >= file.registers.registers {
            return Some(RegisterFault::Range);
        }
        if !file.registers.is_free(u32::from(register)) {
            return Some(RegisterFault::Busy);
        }
        None
    }

    fn merge_fault(
        file: &ImplicitFile<T>,
        register: u16,
        block: u32,
        target: &T,
    ) -> Option<RegisterFault> {
        // A merge that is right asks for no search.
        let there = u32::from(register) < file.registers.registers;
        if there && file.registers.holds_in(u32::from(register), block) {
            if !file.has_field(u32::from(register), target.position()) {
                return Some(RegisterFault::Full);
            }
            return None;
        }
        if !file.registers.holds(block) {
            return Some(RegisterFault::NotInFlight);
        }
        if !there {
            return Some(RegisterFault::Range);
        }
        Some(RegisterFault::Wrong)
    }

    fn merge_fault_in(
        file: &ImplicitFile<T>,
        holder: Option<u16>,
        register: u16,
        _block: u32,
        target: &T,
    ) -> Option<RegisterFault> {
        let Some(holder) = holder else {
            return Some(RegisterFault::NotInFlight);
        };
        if register != holder {
            if u32::from(register) >= file.registers.registers {
                return Some(RegisterFault::Range);
            }
            return Some(RegisterFault::Wrong);
        }
        if !file.has_field(u32::from(register), target.position()) {
            return Some(RegisterFault::Full);
        }
        None
    }

    fn place(file: &mut ImplicitFile<T>, register: u16, block: u32, target: T) {
        file.append(register, block, target);
    }

    fn release_into(file: &mut ImplicitFile<T>, block: u32, targets: &mut Targets<T>) {
        match file.registers.find(block) {
            Some(holder) => Self::release_of(file, holder, block, targets),
            None => targets.clear(),
        }
    }

    fn release_of(file: &mut ImplicitFile<T>, holder: u16, block: u32, targets: &mut Targets<T>) {
        file.registers.release_of(holder, block, targets);
    }

    fn store_bytes(file: &ImplicitFile<T>, block: u32) -> Mask {
        file.registers.store_bytes(block)
    }

    fn holds(file: &ImplicitFile<T>, block: u32) -> bool {
        file.registers.holds(block)
    }
}
