//! What a register holds: its block, and a target of it.

ghost use Rattle.std.specs.Prelude.{◌≡◌};
ghost use Rattle.lf_mshr.specs.RegisterFile.{store_mask};

use crate::target::Target;
use std::marker::Model;

/// A register's block, and one target of it.
#[derive(Clone, Copy, Drop)]
pub struct Held<T> {
    pub register: u16,
    pub block: u32,
    pub target: T,
}

impl<T> Model for Held<T> {
    ghost use Rattle.lf_rules.specs.Registers as model;

    ghost Value = { model.Held T };

    ghost view = { λ h. record { register = h.register; block = h.block; target = h.target } };

    ghost inverse = { λ h. record { register = h.register; block = h.block; target = h.target } };
}

impl<T: Target> Held<T> {
    /// What a place holds that is not in use.
    pub fn blank() -> Held<T> {
        Held {
            register: 0,
            block: 0,
            target: T::default(),
        }
    }
}

impl<T> Held<T> {
    pub fn block(&self) -> u32
        ensures { result ≡ self.now.block }
    {
        self.block
    }

    pub fn target(&self) -> &T
        ensures { result.now ≡ self.now.target }
    {
        &self.target
    }
}

/// The bytes that a target writes.
pub fn store_mask<T: Target>(target: &T) -> u64
    ensures { result ≡ store_mask T.is_store T.bytes target.now }
{
    if target.is_store() {
        target.bytes().0
    } else {
        0
    }
}
