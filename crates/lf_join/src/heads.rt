//! How far each log and each bank has gone.

ghost use Rattle.std.specs.Prelude.{◌≡◌, ◌≢◌, ◌<◌, ◌≤◌, ◌+◌, ◌^◌, ℕ, true, IfNone, IfSome, IsSome, MatchOption};
ghost use Rattle.std.specs.Prelude.{◌++◌, map, length, take, drop, replicate, slice_index, All};
ghost use Rattle.arrayvec.specs.ArrayVec.{array_vec_len};
ghost use Rattle.lf_join.specs.Join.{skeleton_lists};

use crate::check::entries;
use arrayvec::ArrayVec;
use lf_rules::{Knot, NO_BANK, Ring, Skeleton};

/// The most logs that there are.
pub(crate) const LOGS: usize = 32;

pub(crate) const BANKS: usize = 256;

/// Where each log and each bank stands.
#[derive(Drop)]
pub(crate) struct Heads {
    /// Per log the place of its next entry.
    pub places: [usize; LOGS],
    /// Per bank the number that goes next.
    pub next: [u64; BANKS],
}

impl Heads {
    ghost use Rattle.lf_join.specs.Heads.{next_entry, can_go, holds_next, Advances, HeadsWait, AllWait, IsPath};
    ghost use Rattle.lf_join.specs.Heads.{IsRingAt, knot_of};

    /// Before anything has gone.
    pub fn new() -> Self
        ensures places { result.places ≡ replicate 32 0 }
        ensures next { result.next ≡ replicate 256 0 }
    {
        Heads {
            places: [0; LOGS],
            next: [0; BANKS],
        }
    }

    /// The log's next entry, if it has one left.
    pub fn next_entry(&self, skeletons: &[Skeleton], log: usize) -> Option<(u8, u32)>
        requires { log < 32 }
        ensures entry { result ≡ next_entry (skeleton_lists skeletons.now) self.now.places log }
        ensures small { IsSome result → slice_index self.now.places log + 1 < 2 ^ 64 }
    {
        entries(skeletons, log).get(self.places[log]).copied()
    }

    /// Whether the log's next entry can go: one that names no bank, or carries its bank's next number.
    pub fn can_go(&self, skeletons: &[Skeleton], log: usize) -> bool
        requires { log < 32 }
        ensures { result ≡ can_go (skeleton_lists skeletons.now) self.now.places self.now.next log }
    {
        match self.next_entry(skeletons, log) {
            Some((bank, number)) => {
                bank >= NO_BANK || u64::from(number) == self.next[bank as usize]
            }
            None => false,
        }
    }

    /// Lets the log's next entry go, which is the answer. That of a fence leaves a number where no
    /// entry is compared with it.
    pub fn advance(&mut self, skeletons: &[Skeleton], log: usize) -> (u8, u32)
        requires log { log < 32 }
        requires goes { can_go (skeleton_lists skeletons.now) self.old.places self.old.next log ≡ true }
        ensures entry { next_entry (skeleton_lists skeletons.now) self.old.places log ≡ Some result }
        ensures gone { Advances (skeleton_lists skeletons.now) self.old.places self.old.next log self.new.places
            self.new.next }
    {
        let Some((bank, number)) = self.next_entry(skeletons, log) else {
            unreachable!();
        };
        self.places[log] += 1;
        self.next[bank as usize] = u64::from(number) + 1;
        (bank, number)
    }

    /// The lowest log with entries left.
    pub fn first_left(&self, skeletons: &[Skeleton]) -> Option<u8>
        requires { length skeletons.now ≤ 32 }
        ensures { MatchOption result
            ((log : ℕ) → log < length skeletons.now → next_entry (skeleton_lists skeletons.now) self.now.places log
            ≡ None)
            (λ first. (first < length skeletons.now) × IsSome
            (next_entry (skeleton_lists skeletons.now) self.now.places first)
            × ((log : ℕ) → log < first → next_entry (skeleton_lists skeletons.now) self.now.places log ≡ None)) }
    {
        for first in 0..skeletons.len() {
            if self.next_entry(skeletons, first).is_some() {
                return Some(first as u8);
            }
        }
        None
    }

    /// Whether an entry of the log that has not gone carries the bank's next number.
    fn holds_next(&self, skeletons: &[Skeleton], log: usize, bank: u8) -> bool
        requires { log < 32 }
        ensures { result ≡ holds_next (skeleton_lists skeletons.now) self.now.places self.now.next bank log }
    {
        let number = self.next[bank as usize];
        entries(skeletons, log)
            .iter()
            .skip(self.places[log])
            .any(|entry| entry.0 == bank && u64::from(entry.1) == number)
    }

    /// The log that holds the next number of the bank of this log's next entry.
    fn waits_for(&self, skeletons: &[Skeleton], log: u8) -> u8
        requires few { length skeletons.now ≤ 32 }
        requires log { log < 32 }
        requires left { IsSome (next_entry (skeleton_lists skeletons.now) self.now.places log) }
        requires waits { AllWait (skeleton_lists skeletons.now) self.now.places self.now.next }
        ensures waits { HeadsWait (skeleton_lists skeletons.now) self.now.places self.now.next log result }
        ensures log { result < length skeletons.now }
    {
        let Some((bank, _)) = self.next_entry(skeletons, log as usize) else {
            unreachable!();
        };
        for other in 0..skeletons.len() {
            if self.holds_next(skeletons, other, bank) {
                return other as u8;
            }
        }
        unreachable!();
    }

    /// The logs on the way from the start, each waiting for the next, up to the first that comes
    /// again, and the place of that one.
    fn walk(&self, skeletons: &[Skeleton], start: u8) -> (ArrayVec<u8, LOGS>, usize)
        requires few { length skeletons.now ≤ 32 }
        requires start { start < length skeletons.now }
        requires left { IsSome (next_entry (skeleton_lists skeletons.now) self.now.places start) }
        requires waits { AllWait (skeleton_lists skeletons.now) self.now.places self.now.next }
        ensures path { IsPath (HeadsWait (skeleton_lists skeletons.now) self.now.places self.now.next) start
            result.0.items
            (slice_index result.0.items result.1) }
        ensures again { result.1 < array_vec_len result.0 }
        ensures logs { All (λ log. log < length skeletons.now) result.0.items }
    {
        let mut path = ArrayVec::new();
        let mut log = start;
        loop {
            if let Some(again) = place_of(path.as_slice(), log) {
                return (path, again);
            }
            path.push(log);
            log = self.waits_for(skeletons, log);
        }
    }

    /// Adds a knot for each of these logs.
    fn push_knots(&self, ring: &mut Ring, logs: &[u8])
        requires room { array_vec_len ring.old + length logs.now ≤ 32 }
        requires logs { All (λ log. (log < 32) × (slice_index self.now.places log < 2 ^ 32)) logs.now }
        ensures { ring.new.items ≡ ring.old.items ++ map (knot_of self.now.places) logs.now }
    {
        for log in logs {
            ring.push(Knot {
                log: *log,
                at: self.places[*log as usize] as u32,
            });
        }
    }

    /// The knots of a round, from its lowest log on.
    fn from_lowest(&self, round: &[u8]) -> Ring
        requires some { 0 < length round.now }
        requires room { length round.now ≤ 32 }
        requires logs { All (λ log. (log < 32) × (slice_index self.now.places log < 2 ^ 32)) round.now }
        ensures { (lowest : ℕ) × (lowest < length round.now)
            × ((k : ℕ) → k < length round.now → slice_index round.now lowest ≤ slice_index round.now k)
            × (result.items ≡ map (knot_of self.now.places) (drop lowest round.now ++ take lowest round.now)) }
    {
        let lowest = lowest_place(round);
        let mut ring = Ring::new();
        self.push_knots(&mut ring, &round[lowest..]);
        self.push_knots(&mut ring, &round[..lowest]);
        ring
    }

    /// The ring to which the waits lead from the start, from its lowest log on.
    pub fn ring(&self, skeletons: &[Skeleton], start: u8) -> Ring
        requires few { length skeletons.now ≤ 32 }
        requires short { All (λ skeleton. length skeleton ≤ 2 ^ 24) (skeleton_lists skeletons.now) }
        requires start { start < length skeletons.now }
        requires left { IsSome (next_entry (skeleton_lists skeletons.now) self.now.places start) }
        requires waits { AllWait (skeleton_lists skeletons.now) self.now.places self.now.next }
        ensures { IsRingAt (skeleton_lists skeletons.now) self.now.places self.now.next start result.items }
    {
        let (path, again) = self.walk(skeletons, start);
        self.from_lowest(&path.as_slice()[again..])
    }
}

/// The place of a log.
fn place_of(logs: &[u8], log: u8) -> Option<usize>
    ensures none { IfNone result ((k : ℕ) → k < length logs.now → slice_index logs.now k ≢ log) }
    ensures found { IfSome result (λ place. (place < length logs.now) × (slice_index logs.now place ≡ log)) }
{
    for (place, other) in logs.iter().enumerate() {
        if *other == log {
            return Some(place);
        }
    }
    None
}

/// The place of the lowest log.
fn lowest_place(logs: &[u8]) -> usize
    requires { 0 < length logs.now }
    ensures place { result < length logs.now }
    ensures lowest { (k : ℕ) → k < length logs.now → slice_index logs.now result ≤ slice_index logs.now k }
{
    let mut lowest = 0;
    for (place, log) in logs.iter().enumerate() {
        if *log < logs[lowest] {
            lowest = place;
        }
    }
    lowest
}
