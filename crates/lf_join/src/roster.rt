//! Which logs can go, and which wait for a number of a bank.

ghost use Rattle.std.specs.Prelude.{◌≡◌, ◌<◌, ◌%◌, ℕ, true, length, MatchOption};
ghost use Rattle.lf_join.specs.Join.{skeleton_lists};
ghost use Rattle.lf_join.specs.Heads.{next_entry, can_go, Advances};
ghost use Rattle.lf_join.specs.LogSets.{IsEmpty, IsLowest};

use crate::heads::{BANKS, Heads, LOGS};
use crate::log_set::LogSet;
use lf_rules::{NO_BANK, Skeleton};

/// How many sets of waiting logs a bank has. A log waits in the set of its number's remainder, so
/// that its number is compared once at most while so many numbers of its bank go by.
const SETS: usize = 32;

/// Where each log stands.
#[derive(Drop)]
pub(crate) struct Roster {
    /// The logs that can go.
    ready: LogSet,
    /// Per bank, by the remainder of the number that they wait for, the logs that wait.
    waiting: [[LogSet; SETS]; BANKS],
    /// Per log that waits, the number that it waits for.
    numbers: [u64; LOGS],
}

/// The set of the logs that wait for this number.
fn set_of(number: u64) -> usize
    ensures { result ≡ number % 32 }
{
    (number % SETS as u64) as usize
}

impl Roster {
    ghost use Rattle.lf_join.specs.Standings.{Nowhere, Goes, Waits, Stands, OthersStay, AllStand, IsItsOwn, IsCalled};
    ghost use Rattle.lf_join.specs.Standings.{standing_of};

    /// No log stands anywhere.
    fn empty() -> Self
        ensures { (log : ℕ) → log < 32 → Stands result log Nowhere }
    {
        Roster {
            ready: LogSet::new(),
            waiting: [[LogSet::new(); SETS]; BANKS],
            numbers: [0; LOGS],
        }
    }

    /// Adds a log to those that wait for this number.
    fn wait(&mut self, log: u8, bank: u8, number: u64)
        requires log { log < 32 }
        requires nowhere { Stands self.old log Nowhere }
        ensures waits { Stands self.new log (Waits bank number) }
        ensures others { OthersStay self.old self.new log }
    {
        let set = set_of(number);
        let mut waiting = self.waiting[bank as usize][set];
        waiting.insert(log);
        self.waiting[bank as usize][set] = waiting;
        self.numbers[log as usize] = number;
    }

    /// A log that waited for this number can go.
    fn wake(&mut self, log: u8, bank: u8, number: u64)
        requires log { log < 32 }
        ensures woken { Stands self.old log (Waits bank number) → Stands self.new log Goes }
        ensures others { OthersStay self.old self.new log }
    {
        let set = set_of(number);
        let mut waiting = self.waiting[bank as usize][set];
        waiting.remove(log);
        self.waiting[bank as usize][set] = waiting;
        self.ready.insert(log);
    }

    /// Wakes the log that waits for this number. Those that wait for another number of the set stay.
    pub fn call(&mut self, bank: u8, number: u64)
        ensures { IsCalled self.old self.new bank number }
    {
        let mut called = self.waiting[bank as usize][set_of(number)];
        while let Some(log) = called.pop() {
            if self.numbers[log as usize] == number {
                self.wake(log, bank, number);
            }
        }
    }

    /// Adds a log to those that can go.
    fn admit(&mut self, log: u8)
        requires log { log < 32 }
        requires nowhere { Stands self.old log Nowhere }
        ensures goes { Stands self.new log Goes }
        ensures others { OthersStay self.old self.new log }
    {
        self.ready.insert(log);
    }

    /// Takes a log out of those that can go.
    pub fn leave(&mut self, log: u8)
        requires log { log < 32 }
        requires goes { Stands self.old log Goes }
        ensures nowhere { Stands self.new log Nowhere }
        ensures others { OthersStay self.old self.new log }
    {
        self.ready.remove(log);
    }

    /// Adds a log where its next entry says.
    pub fn settle(&mut self, skeletons: &[Skeleton], heads: &Heads, log: u8)
        requires log { log < 32 }
        requires nowhere { Stands self.old log Nowhere }
        ensures settled { Stands self.new log (standing_of heads.now.next
            (next_entry (skeleton_lists skeletons.now) heads.now.places log)) }
        ensures others { OthersStay self.old self.new log }
    {
        if let Some((bank, number)) = heads.next_entry(skeletons, log as usize) {
            let number = u64::from(number);
            if bank < NO_BANK && number != heads.next[bank as usize] {
                self.wait(log, bank, number);
            } else {
                self.admit(log);
            }
        }
    }

    /// Each log where its next entry says.
    pub fn new(skeletons: &[Skeleton], heads: &Heads) -> Self
        ensures { AllStand (skeleton_lists skeletons.now) heads.now.places heads.now.next result }
    {
        let mut roster = Roster::empty();
        for log in 0..LOGS as u8 {
            roster.settle(skeletons, heads, log);
        }
        roster
    }

    /// The lowest log that can go.
    pub fn first(&self) -> Option<u8>
        ensures { MatchOption result (IsEmpty self.now.ready) (IsLowest self.now.ready) }
    {
        self.ready.lowest()
    }

    /// Lets the log's next entry go. The bank's next number wakes the log that waits for it, and the
    /// log that went stands where its next entry says.
    pub fn let_go(&mut self, skeletons: &[Skeleton], heads: &mut Heads, log: u8)
        requires log { log < 32 }
        requires sized { length heads.old.next ≡ 256 }
        requires stand { AllStand (skeleton_lists skeletons.now) heads.old.places heads.old.next self.old }
        requires goes { can_go (skeleton_lists skeletons.now) heads.old.places heads.old.next log ≡ true }
        requires own { IsItsOwn (skeleton_lists skeletons.now) heads.old.places log }
        ensures gone { Advances (skeleton_lists skeletons.now) heads.old.places heads.old.next log heads.new.places
            heads.new.next }
        ensures stand { AllStand (skeleton_lists skeletons.now) heads.new.places heads.new.next self.new }
    {
        let (bank, number) = heads.advance(skeletons, log as usize);
        self.leave(log);
        self.call(bank, u64::from(number) + 1);
        self.settle(skeletons, heads, log);
    }
}
