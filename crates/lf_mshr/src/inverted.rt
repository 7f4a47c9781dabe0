//! Inverted files: a register for each destination.

ghost use Rattle.std.specs.Prelude.{◌≡◌, ◌<◌, ◌++◌, ◌∷◌, [], ◌==◌, true};
ghost use Rattle.std.specs.List.{list_all};
ghost use Rattle.lf_rules.specs.Registers.{is_free};
ghost use Rattle.lf_mshr.specs.RegisterFile.{held_item};
ghost use Rattle.lf_mshr.specs.Places.{held_of};

use crate::fault::RegisterFault;
use crate::held::Held;
use crate::organisation::Organisation;
use crate::places::Places;
use crate::target::Target;
use crate::targets::Targets;
use lf_rules::{Mask, NoMemory, OrgShape};
use std::alloc::Global;
use std::marker::PhantomData;

/// The organisation with one register for each possible destination. Several may hold one block.
pub struct Inverted<T>(PhantomData<T>);

/// The registers of an inverted file. The place of a register is its number.
#[derive(Drop)]
pub struct InvertedFile<T> {
    destinations: u16,
    places: Places<T>,
    ghost all: { places.places ≡ destinations },
    ghost own: { list_all (λ q. q.0 == q.1.register) places.order ≡ true },
}

impl<T: Target> InvertedFile<T> {
    fn is_free(&self, register: u16) -> bool
        requires { register < self.now.destinations }
        ensures { result ≡ is_free (held_of self.now.places.order) register }
    {
        !self.places.is_taken(register)
    }

    /// Appends a target of a free register.
    fn append(&mut self, register: u16, block: u32, target: T)
        requires exists { register < self.old.destinations }
        requires free { is_free (held_of self.old.places.order) register ≡ true }
        ensures items { held_of self.new.places.order ≡ held_of self.old.places.order
            ++ held_item register block target ∷ [] }
        ensures destinations { self.new.destinations ≡ self.old.destinations }
    {
        let item = Held {
            register,
            block,
            target,
        };
        self.places.push(register, item);
    }
}

impl<T: Target> Organisation for Inverted<T> {
    ghost use Rattle.std.specs.Prelude.{◌≡◌, true, false, refl};
    ghost use Rattle.lf_mshr.specs.RegisterFile.{inverted_file};
    ghost use Rattle.lf_mshr.specs.Names.{is_inverted};

    type Target = T;

    type File = InvertedFile<T>;

    const SHARES: bool = true;

    ghost SHARES = { true };

    ghost names = { is_inverted };

    ghost seen = { λ file. inverted_file file.destinations (held_of file.places.order) };

    ghost shares_as_seen = { λ file. refl };

    ghost holds_once = { λ file e. absurd (Prim.cc) };

    fn new(
        alloc: Global,
        _organisation: &OrgShape,
        destinations: u16,
    ) -> Result<InvertedFile<T>, NoMemory> {
        let places = Places::new(alloc, destinations)?;
        Ok(InvertedFile {
            destinations,
            places,
        })
    }

    fn room(file: &InvertedFile<T>, _block: u32, target: &T) -> bool {
        let destination = target.destination();
        destination < file.destinations && file.is_free(destination)
    }

    fn room_in(file: &InvertedFile<T>, _holder: Option<u16>, block: u32, target: &T) -> bool {
        Self::room(file, block, target)
    }

    fn fresh_fault(
        file: &InvertedFile<T>,
        register: u16,
        _block: u32,
        target: &T,
    ) -> Option<RegisterFault> {
        if register >= file.destinations {
            return Some(RegisterFault::Range);
        }
        if register != target.destination() {
            return Some(RegisterFault::Wrong);
        }
        if !file.is_free(register) {
            return Some(RegisterFault::Busy);
        }
        None
    }

    fn merge_fault(
        file: &InvertedFile<T>,
        register: u16,
        block: u32,
        target: &T,
    ) -> Option<RegisterFault> {
        if !file.places.holds(block) {
            return Some(RegisterFault::NotInFlight);
        }
        if register >= file.destinations {
            return Some(RegisterFault::Range);
        }
        if register != target.destination() {
            return Some(RegisterFault::Wrong);
        }
        if !file.is_free(register) {
            return Some(RegisterFault::Full);
        }
        None
    }

    fn merge_fault_in(
        file: &InvertedFile<T>,
        holder: Option<u16>,
        register: u16,
        _block: u32,
        target: &T,
    ) -> Option<RegisterFault> {
        if holder.is_none() {
            return Some(RegisterFault::NotInFlight);
        }
        if register >= file.destinations {
            return Some(RegisterFault::Range);
        }
        if register != target.destination() {
            return Some(RegisterFault::Wrong);
        }
        if !file.is_free(register) {
            return Some(RegisterFault::Full);
        }
        None
    }

    fn place(file: &mut InvertedFile<T>, register: u16, block: u32, target: T) {
        file.append(register, block, target);
    }

    fn release_into(file: &mut InvertedFile<T>, block: u32, targets: &mut Targets<T>) {
        let all = file.places.count();
        file.places.release_into(block, all, targets);
    }

    fn release_of(file: &mut InvertedFile<T>, _holder: u16, block: u32, targets: &mut Targets<T>) {
        Self::release_into(file, block, targets);
    }

    fn store_bytes(file: &InvertedFile<T>, block: u32) -> Mask {
        file.places.store_bytes(block)
    }

    fn holds(file: &InvertedFile<T>, block: u32) -> bool {
        file.places.holds(block)
    }
}
