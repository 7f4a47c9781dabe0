//! The registers of one level of one bank, in which misses wait.

ghost use Rattle.lf_rules.specs.InRange.{IsOrganisation};

use lf_rules::OrgShape;
use std::alloc::{AllocError, Global};

/// What waits in a register for a block.
#[derive(Drop)]
pub struct Target<T> {
    pub register: u16,
    pub block: u32,
    pub position: u32,
    pub waiting: T,
}

/// The registers of a level: their targets, in the order of acceptance.
#[derive(Drop)]
pub struct Registers<T> {
    organisation: OrgShape,
    count: u16,
    pub targets: Vec<Target<T>>,
}

/// How many registers a level has, where so many destinations are possible.
pub fn count_of(organisation: OrgShape, destinations: u16) -> u16
    requires { IsOrganisation organisation }
{
    match organisation {
        OrgShape::Implicit { registers } | OrgShape::Explicit { registers, .. } => registers as u16,
        OrgShape::Inverted => destinations,
    }
}

impl<T: Drop> Registers<T> {
    pub fn new(alloc: Global, organisation: OrgShape, count: u16) -> Registers<T> {
        Registers {
            organisation,
            count,
            targets: Vec::new(alloc),
        }
    }

    /// The block whose target is the oldest.
    pub fn oldest(&self) -> Option<u32> {
        let target = self.targets.first()?;
        Some(target.block)
    }

    /// Whether the block is being fetched.
    pub fn holds(&self, block: u32) -> bool {
        self.register_of(block).is_some()
    }

    fn register_of(&self, block: u32) -> Option<u16> {
        let target = self.targets.iter().find(|target| target.block == block)?;
        Some(target.register)
    }

    fn is_free(&self, register: u16) -> bool {
        self.targets
            .iter()
            .all(|target| target.register != register)
    }

    /// The register that a target may take, if there is room for it.
    pub fn room(&self, block: u32, destination: u16, position: u32) -> Option<u16> {
        if self.organisation == OrgShape::Inverted {
            return if self.is_free(destination) {
                Some(destination)
            } else {
                None
            };
        }
        match self.register_of(block) {
            None => (0..self.count).find(|register| self.is_free(*register)),
            Some(_) if self.is_full(block, position) => None,
            Some(register) => Some(register),
        }
    }

    /// Whether the register that holds the block has no room at the position.
    fn is_full(&self, block: u32, position: u32) -> bool {
        match self.organisation {
            OrgShape::Implicit { .. } => {
                let is_held = |target: &Target<T>| target.block == block
                    && target.position == position;
                self.targets.iter().any(is_held)
            }
            OrgShape::Explicit { entries, .. } => {
                let held = self.targets.iter().filter(|target| target.block == block);
                held.count() >= entries as usize
            }
            OrgShape::Inverted => true,
        }
    }

    /// Places a target in a register that has room for it.
    pub fn place(
        &mut self,
        register: u16,
        block: u32,
        position: u32,
        waiting: T,
    ) -> Result<(), AllocError> {
        self.targets.push(Target {
            register,
            block,
            position,
            waiting,
        })?;
        Ok(())
    }

    /// Takes out what waits for the block, in the order of acceptance.
    pub fn release(&mut self, alloc: Global, block: u32) -> Result<Vec<T>, AllocError> {
        let mut released = Vec::new(alloc);
        let mut left = Vec::new(alloc);
        for target in std::mem::replace(&mut self.targets, Vec::new(alloc)) {
            if target.block == block {
                released.push(target.waiting)?;
            } else {
                left.push(target)?;
            }
        }
        self.targets = left;
        Ok(released)
    }
}
