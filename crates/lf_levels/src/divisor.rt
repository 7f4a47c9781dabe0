//! Division by a number that stays the same.

ghost use Rattle.std.specs.Prelude.{◌≡◌, ◌/◌, ◌%◌, ◌<◌};

use std::marker::Model;

/// A divisor. Most are powers of two, and how far a number is then shifted is worked out once: the processor's
/// own division takes as long as ten or twenty other instructions.
#[derive(Drop)]
pub struct Divisor {
    by: u32,
    /// How many places a number is shifted, where the divisor is a power of two.
    places: Option<u32>,
}

impl Model for Divisor {
    ghost use Rattle.std.specs.Prelude.{ℕ, ◌≡◌, ◌<◌, ◌^◌, IfSome};

    ghost Value = { ℕ };

    ghost view = { λ d. d.by };

    ghost invariant = { λ d. (0 < d.by) × IfSome d.places (λ places. (places < 32) × (d.by ≡ 2 ^ places)) };
}

impl Divisor {
    /// This number as a divisor.
    pub fn of(by: u32) -> Divisor
        requires { 0 < by }
        ensures { result ≡ by }
    {
        let places = by.ilog2();
        Divisor {
            by,
            places: (by == 1 << places).then_some(places),
        }
    }

    /// The divisor itself.
    pub fn get(&self) -> u32
        ensures { result ≡ self.now }
    {
        self.by
    }

    /// How often the divisor goes into the number.
    #[inline(always)]
    pub fn quotient(&self, n: u32) -> u32
        ensures { result ≡ n / self.now }
    {
        match self.places {
            Some(places) => n >> places,
            None => n / self.by,
        }
    }

    /// What is left of the number.
    #[inline(always)]
    pub fn remainder(&self, n: u32) -> u32
        ensures { result ≡ n % self.now }
    {
        match self.places {
            Some(_) => n & (self.by - 1),
            None => n % self.by,
        }
    }
}
