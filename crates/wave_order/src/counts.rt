//! How many records of each log came.

ghost use Rattle.std.specs.Prelude.{◌≡◌};
ghost use Rattle.wave_order.specs.Times.{none_came, came_of, one_more_of};

/// How many records of each log came so far.
#[derive(Drop)]
pub struct Counts([u64; 256]);

impl Counts {
    /// Before the first record.
    pub fn new() -> Counts
        ensures { result.0 ≡ none_came }
    {
        Counts([0; 256])
    }

    /// How many of this log came.
    pub fn of(&self, log: u8) -> u64
        ensures { result ≡ came_of self.now.0 log }
    {
        self.0[log as usize]
    }

    /// Takes one more of this log.
    pub fn take(&mut self, log: u8)
        ensures { self.new.0 ≡ one_more_of self.old.0 log }
    {
        self.0[log as usize] = self.of(log).saturating_add(1);
    }
}
