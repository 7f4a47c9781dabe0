//! Where bytes are kept.

ghost use Rattle.std.specs.Prelude.{◌≡◌, ◌<◌, ◌+◌, ◌*◌, ◌/◌, ◌%◌, ◌^◌, ◌-◌};

use std::marker::Model;

/// Where bytes are kept: a number of four bytes below 2^32 - 1. It counts the multiples of four bytes in all chunks
/// before, of which a chunk has 16,384.
#[derive(Clone, Copy)]
pub struct Place {
    number: u32,
}

impl Model for Place {
    ghost use Rattle.std.specs.Prelude.{ℕ, ◌<◌, ◌^◌, ◌-◌};

    ghost Value = { ℕ };

    ghost view = { λ p. p.number };

    ghost invariant = { λ p. p.number < 2 ^ 32 - 1 };

    ghost inverse = { λ number. record { number = number } };
}

impl Place {
    /// This place in this chunk, counted in multiples of four bytes.
    #[inline(always)]
    pub(crate) fn new(chunk: usize, step: usize) -> Place
        requires chunk_in { chunk < 2 ^ 18 - 1 }
        requires step_in { step < 16384 }
        ensures { result ≡ 16384 * chunk + step }
    {
        Place {
            number: (16384 * chunk + step) as u32,
        }
    }

    /// The place with this number.
    #[inline(always)]
    pub(crate) fn of_number(number: u32) -> Place
        requires { number < 2 ^ 32 - 1 }
        ensures { result ≡ number }
    {
        Place { number }
    }

    /// Its number.
    #[inline(always)]
    pub(crate) fn number(self) -> u32
        ensures same { result ≡ self }
        ensures small { result < 2 ^ 32 - 1 }
    {
        self.number
    }

    /// The chunk that it is in.
    #[inline(always)]
    pub(crate) fn chunk(self) -> usize
        ensures { result ≡ self / 16384 }
    {
        self.number as usize / 16384
    }

    /// Where it is in its chunk, in bytes.
    #[inline(always)]
    pub(crate) fn start(self) -> usize
        ensures { result ≡ 4 * (self % 16384) }
    {
        4 * (self.number as usize % 16384)
    }
}
