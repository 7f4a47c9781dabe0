//! What is used of a level at once.

ghost use Rattle.std.specs.Prelude.{◌≡◌};
ghost use Rattle.count_usage.specs.Usage.{greater};

/// What is used of a level of a bank at once, or at most.
#[derive(Clone, Copy, Default, PartialEq, Eq)]
pub struct LevelUse {
    /// The lines of one set.
    pub ways: u32,
    /// The registers that primary misses took.
    pub registers: u32,
    /// The misses that wait in one register.
    pub targets: u32,
}

impl LevelUse {
    /// The greater of each.
    pub(crate) fn greater(self, other: LevelUse) -> LevelUse
        ensures { result ≡ greater self other }
    {
        LevelUse {
            ways: self.ways.max(other.ways),
            registers: self.registers.max(other.registers),
            targets: self.targets.max(other.targets),
        }
    }
}
