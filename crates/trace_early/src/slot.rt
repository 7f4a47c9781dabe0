//! A slot of a table.

ghost use Rattle.std.specs.Prelude.{◌≡◌, ◌↔◌, IsTrue, Some, None};
ghost use Rattle.trace_early.specs.Table.{place_for};

use crate::place::Place;
use std::marker::Model;

/// The number and the place of an entry, or none, in 8 bytes.
#[derive(Clone, Copy)]
pub struct Slot {
    /// 0 where there is no entry.
    number: u32,
    /// 0 where there is no entry, and otherwise one more than its place.
    code: u32,
}

impl Model for Slot {
    ghost use Rattle.std.specs.Prelude.{ℕ, Option, ◌≡◌};
    ghost use Rattle.trace_early.specs.Slots.{entry_of, number_of, code_of, slot_again};

    ghost Value = { Option (ℕ × ℕ) };

    ghost view = { λ s. entry_of s.number s.code };

    ghost invariant = { λ s. s.code ≡ 0 → s.number ≡ 0 };

    ghost inverse = { λ entry. record { number = number_of entry; code = code_of entry } };

    ghost inverse_ok = { λ s h. slot_again (λ number code. record { number = number; code = code }) s.number s.code h };
}

impl Slot {
    /// No entry.
    pub fn empty() -> Slot
        ensures { result ≡ None }
    {
        Slot { number: 0, code: 0 }
    }

    /// An entry.
    #[inline(always)]
    pub fn of(number: u32, place: Place) -> Slot
        ensures { result ≡ Some (number, place) }
    {
        Slot {
            number,
            code: place.number() + 1,
        }
    }

    /// Whether there is none.
    #[inline(always)]
    pub fn is_empty(self) -> bool
        ensures { IsTrue result ↔ (self ≡ None) }
    {
        self.code == 0
    }

    /// The entry.
    pub fn entry(self) -> Option<(u32, Place)>
        ensures { result ≡ self }
    {
        if self.code == 0 {
            return None;
        }
        Some((self.number, Place::of_number(self.code - 1)))
    }

    /// The place of this number, where the entry has it.
    #[inline(always)]
    pub fn place_for(self, number: u32) -> Option<Place>
        ensures { result ≡ place_for number self }
    {
        if self.code == 0 || self.number != number {
            return None;
        }
        Some(Place::of_number(self.code - 1))
    }
}
