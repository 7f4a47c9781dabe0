//! The list that a release fills.

ghost use Rattle.std.specs.Prelude.{◌≡◌, ◌<◌, ◌≤◌, ◌++◌, ◌∷◌, [], ◌==◌, length, IfOk};

use lf_rules::NoMemory;
use std::alloc::Global;
use std::marker::Model;

/// As many targets as the largest file has places.
const ROOM: usize = 4096;

/// The targets of a block, each with the register that held it, in the order of acceptance.
///
/// A list is made once, with room for all that a file can hold, so that a release takes no memory.
#[derive(Drop)]
pub struct Targets<T> {
    items: Vec<(u16, T)>,
}

impl<T> Model for Targets<T> {
    ghost use Rattle.std.specs.Prelude.{List, ℕ, ◌≤◌, length, vec_capacity};

    ghost Value = { List (ℕ × T) };

    ghost view = { λ t. t.items.items };

    ghost invariant = { λ t. (4096 ≤ vec_capacity t.items) × (length t.items.items ≤ 4096) };
}

impl<T: Drop> Targets<T> {
    /// An empty list.
    pub fn new(alloc: Global) -> Result<Targets<T>, NoMemory>
        ensures { IfOk result (λ t. t ≡ []) }
    {
        let items = Vec::with_capacity(alloc, ROOM)?;
        Ok(Targets { items })
    }

    /// How many targets there are.
    pub fn len(&self) -> usize
        ensures { result ≡ length self.now }
    {
        self.items.len()
    }

    /// Whether there are none.
    pub fn is_empty(&self) -> bool
        ensures { result ≡ (length self.now == 0) }
    {
        self.items.is_empty()
    }

    /// The targets, each behind its register.
    pub fn as_slice(&self) -> &[(u16, T)]
        ensures value { result.now ≡ self.now }
        ensures few { length result.now ≤ 4096 }
    {
        self.items.as_slice()
    }

    /// Takes all out.
    pub fn clear(&mut self)
        ensures { self.new ≡ [] }
    {
        self.items.clear();
    }

    /// Appends a target of the register.
    pub fn push(&mut self, register: u16, target: T)
        requires { length self.old < 4096 }
        ensures { self.new ≡ self.old ++ (register, target) ∷ [] }
    {
        self.items.push_reserved((register, target));
    }
}
