//! Sets of logs.

ghost use Rattle.std.specs.Prelude.{◌<◌, true, false, MatchOption, IfSome};

/// A set of logs: the bit of each member is set.
#[derive(Clone, Copy)]
pub(crate) struct LogSet(u32);

impl LogSet {
    ghost use Rattle.lf_join.specs.LogSets.{IsEmpty, IsLowest, Changes, IsSetNotAbove, IsSetBelow};

    /// The set without a member.
    pub const fn new() -> Self
        ensures { IsEmpty result }
    {
        LogSet(0)
    }

    /// The lowest member.
    pub fn lowest(self) -> Option<u8>
        ensures { MatchOption result (IsEmpty self) (IsLowest self) }
    {
        if self.0 == 0 {
            None
        } else {
            Some(self.0.trailing_zeros() as u8)
        }
    }

    pub fn insert(&mut self, log: u8)
        requires { log < 32 }
        ensures { Changes self.old self.new log true }
    {
        self.0 |= 1 << log;
    }

    pub fn remove(&mut self, log: u8)
        requires { log < 32 }
        ensures removed { Changes self.old self.new log false }
        ensures not_above { IsSetNotAbove self.new self.old }
    {
        self.0 &= !(1 << log);
    }

    /// Takes the lowest member out.
    pub fn pop(&mut self) -> Option<u8>
        ensures lowest { MatchOption result (IsEmpty self.old) (IsLowest self.old) }
        ensures taken { IfSome result (λ log. Changes self.old self.new log false) }
        ensures below { IfSome result (λ log. IsSetBelow self.new self.old) }
    {
        let log = self.lowest()?;
        self.remove(log);
        Some(log)
    }
}
