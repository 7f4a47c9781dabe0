//! What is dirty of each way's line.

ghost use Rattle.std.specs.Prelude.{◌≡◌, ◌<◌, ◌≤◌, true, length, IfOk, slice_index_or};
ghost use Rattle.lf_rules.specs.Fits.{is_factor};
ghost use Rattle.lf_rules.specs.Lines.{marked, no_masks};
ghost use Rattle.lf_levels.specs.WayWords.{with_way};

use crate::level::{Level, Two};
use lf_rules::{Mask, NoMemory};
use std::alloc::Global;
use std::marker::{Model, PhantomData};

/// What is dirty of each way's line, at level `L`. The words of all ways stand together, so that few of the processor's
/// cache lines hold them: one word for each way of level one, and one for each first-level block of a way of level two.
#[derive(Drop)]
pub struct DirtyWays<L: Level> {
    /// How many first-level blocks a block of level two has.
    factor: u32,
    /// The words of the ways, one way after another.
    words: Vec<u64>,
    level: PhantomData<L>,
}

impl<L: Level> Model for DirtyWays<L> {
    ghost use Rattle.std.specs.Prelude.{◌≡◌, true};
    ghost use Rattle.lf_rules.specs.Fits.{is_factor};
    ghost use Rattle.lf_levels.specs.WayWords.{DirtyWays, ways_of};

    ghost Value = { DirtyWays L.Dirty };

    ghost view = { λ d. record { factor = d.factor; ways = ways_of L.dirty_of (L.width d.factor) d.words.items } };

    ghost invariant = { λ d. is_factor d.factor ≡ true };
}

impl<L: Level> DirtyWays<L> {
    /// So many ways. What is dirty of their lines has no meaning yet.
    pub fn new(alloc: Global, factor: u32, count: usize) -> Result<DirtyWays<L>, NoMemory>
        requires factor { is_factor factor ≡ true }
        requires few { count ≤ 65536 }
        ensures factor { IfOk result (λ dirty. dirty.factor ≡ factor) }
        ensures count { IfOk result (λ dirty. length dirty.ways ≡ count) }
    {
        let words = vec![in alloc; 0; count * L::width(factor)]?;
        Ok(DirtyWays {
            factor,
            words,
            level: PhantomData,
        })
    }

    /// What is dirty of the way's line.
    #[inline(always)]
    pub fn get(&self, way: usize) -> L::Dirty
        requires { way < length self.now.ways }
        ensures { result ≡ slice_index_or self.now.ways way result }
    {
        let width = L::width(self.factor);
        let from = way * width;
        L::read(&self.words[from..from + width])
    }

    /// Keeps what is dirty of the way's line.
    #[inline(always)]
    pub fn set(&mut self, way: usize, dirty: &L::Dirty)
        requires way { way < length self.old.ways }
        requires line { L.is_line self.old.factor dirty.now ≡ true }
        ensures { self.new ≡ with_way self.old way dirty.now }
    {
        let width = L::width(self.factor);
        let from = way * width;
        L::write(&mut self.words[from..from + width], dirty);
    }
}

impl DirtyWays<Two> {
    /// The mask at one place of the way's line gains these bytes.
    #[inline(always)]
    pub fn gain_at(&mut self, way: usize, place: u32, mask: Mask)
        requires way { way < length self.old.ways }
        requires place { place < self.old.factor }
        ensures { self.new ≡ with_way self.old way
            (marked (slice_index_or self.old.ways way no_masks) place mask.0) }
    {
        let width = self.factor as usize;
        let from = way * width;
        let words = &mut self.words[from..from + width];
        words[place as usize] |= mask.0;
    }
}
