//! The sets of a level, and which of them a block is in.

ghost use Rattle.std.specs.Prelude.{◌≡◌, ◌<◌, true};
ghost use Rattle.lf_rules.specs.Fits.{is_factor};

use crate::divisor::Divisor;
use crate::level::Level;
use std::marker::Model;

/// The sets of one level of one bank, with the divisors by which the set of a block is found.
#[derive(Drop)]
pub struct Sets {
    banks: Divisor,
    factor: Divisor,
    count: Divisor,
}

impl Model for Sets {
    ghost use Rattle.std.specs.Prelude.{◌≡◌, ◌<◌, true};
    ghost use Rattle.lf_rules.specs.Fits.{is_factor};
    ghost use Rattle.lf_levels.specs.SetsView.{SetsView};

    ghost Value = { SetsView };

    ghost view = { λ s. record { banks = s.banks; factor = s.factor; count = s.count } };

    ghost invariant = { λ s. (0 < s.banks) × ((0 < s.count) × (is_factor s.factor ≡ true)) };
}

impl Sets {
    /// So many sets, in one of so many banks, where a block of level two has so many first-level blocks.
    pub fn new(banks: u32, factor: u32, count: u32) -> Sets
        requires some_banks { 0 < banks }
        requires some_sets { 0 < count }
        requires factor { is_factor factor ≡ true }
        ensures { result ≡ record { banks = banks; factor = factor; count = count } }
    {
        Sets {
            banks: Divisor::of(banks),
            factor: Divisor::of(factor),
            count: Divisor::of(count),
        }
    }

    /// The set of a block of this level.
    #[inline(always)]
    pub fn set_of<L: Level>(&self, block: u32) -> u32
        ensures { result ≡ L.set self.now.banks self.now.factor self.now.count block }
    {
        L::set_by(&self.banks, &self.factor, &self.count, block)
    }
}
