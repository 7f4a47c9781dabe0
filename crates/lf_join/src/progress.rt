//! How far the logs go while their entries come, so that an entry that has gone need not be kept.

ghost use Rattle.std.specs.Prelude.{◌≡◌, ◌<◌, ◌≤◌, ◌+◌, ◌^◌, ℕ, List, [], false, length, map, replicate, slice_index};
ghost use Rattle.std.specs.Prelude.{All, IfErr, IsTrue, OnOk, true};
ghost use Rattle.lf_rules.specs.Order.{log_at};
ghost use Rattle.lf_rules.specs.Ring.{IsRing};
ghost use Rattle.lf_join.specs.Heads.{can_go, is_due};
ghost use Rattle.lf_join.specs.Join.{skeleton_lists, IsStuckRing, HasNoOrder};
ghost use Rattle.lf_join.specs.Progress.{AreLogs, HasAnOrder, HasReached, OfReached, with_entry};
ghost use Rattle.lf_join.specs.RunOn.{ahead_of, knot_behind, RunsOn};
ghost use Rattle.lf_join.specs.Standings.{AllStand};

use crate::heads::{BANKS, Heads, LOGS};
use crate::roster::Roster;
use lf_rules::{Knot, NO_BANK, Ring, Skeleton};
use std::marker::Model;

/// How many entries of each log have gone, and for each bank the number that goes next.
#[derive(Drop)]
pub struct Progress {
    places: [usize; LOGS],
    next: [u64; BANKS],
}

impl Model for Progress {
    ghost use Rattle.std.specs.Prelude.{◌≡◌, length};
    ghost use Rattle.lf_join.specs.Progress.{Reached};

    ghost Value = { Reached };

    ghost view = { λ p. record { places = p.places; next = p.next } };

    ghost invariant = { λ p. (length p.places ≡ 32) × (length p.next ≡ 256) };
}

impl Progress {
    /// No entry has gone.
    pub fn new() -> Progress
        ensures { (count : ℕ) → HasReached (replicate count []) result (replicate count []) }
    {
        Progress {
            places: [0; LOGS],
            next: [0; BANKS],
        }
    }

    /// How many entries of the log have gone.
    pub fn gone(&self, log: u8) -> usize
        requires { log < 32 }
        ensures { result ≡ slice_index self.now.places log }
    {
        self.places[usize::from(log)]
    }

    /// Whether the entry names no bank, or carries its bank's next number.
    #[inline(always)]
    fn is_due(&self, bank: u8, number: u32) -> bool
        ensures { result ≡ is_due self.now.next (bank, number) }
    {
        bank >= NO_BANK || u64::from(number) == self.next[usize::from(bank)]
    }

    /// Lets the entry go that comes next in a log of which none is left, where its turn has come, and says whether it
    /// went: one that carries its bank's next number, or names no bank.
    #[inline(always)]
    pub fn pass(&mut self, log: u8, entry: (u8, u32)) -> bool
        requires log { log < 32 }
        requires short { slice_index self.old.places log ≤ 2 ^ 24 }
        ensures gone { IsTrue result → (skeletons left : List (List (ℕ × ℕ))) → log < length skeletons
            → log_at left log ≡ [] → HasReached skeletons self.old left
            → HasReached (with_entry skeletons log entry) self.new left }
        ensures stays { ¬ IsTrue result → self.new ≡ self.old }
        ensures due { result ≡ is_due self.old.next entry }
    {
        let (bank, number) = entry;
        let goes = self.is_due(bank, number);
        if goes {
            let at = usize::from(log);
            self.places[at] += 1;
            self.next[usize::from(bank)] = u64::from(number) + 1;
        }
        goes
    }

    /// Lets the entries of the log go, of which the next can, up to one that waits.
    fn let_go(&self, left: &[Skeleton], roster: &mut Roster, heads: &mut Heads, log: u8)
        requires log { log < 32 }
        requires reached { (skeletons : List (List (ℕ × ℕ))) × AreLogs skeletons
            × HasReached skeletons self.now (skeleton_lists left.now) }
        requires on { RunsOn self.now (skeleton_lists left.now) heads.old.places heads.old.next }
        requires stand { AllStand (skeleton_lists left.now) heads.old.places heads.old.next roster.old }
        requires goes { can_go (skeleton_lists left.now) heads.old.places heads.old.next log ≡ true }
        ensures on { RunsOn self.now (skeleton_lists left.now) heads.new.places heads.new.next }
        ensures stand { AllStand (skeleton_lists left.now) heads.new.places heads.new.next roster.new }
        ensures fewer { ahead_of (skeleton_lists left.now) heads.new.places
            < ahead_of (skeleton_lists left.now) heads.old.places }
    {
        roster.leave(log);
        loop {
            let (bank, number) = heads.advance(left, log as usize);
            roster.call(bank, u64::from(number) + 1);
            if !heads.can_go(left, log as usize) {
                break;
            }
        }
        roster.settle(left, heads, log);
    }

    /// How far what is left goes on, as far as any of it can.
    fn run_on(&self, left: &[Skeleton]) -> Heads
        requires few { length left.now ≤ 32 }
        requires reached { (skeletons : List (List (ℕ × ℕ))) × AreLogs skeletons
            × HasReached skeletons self.now (skeleton_lists left.now) }
        ensures on { RunsOn self.now (skeleton_lists left.now) result.places result.next }
        ensures stuck { (log : ℕ) → can_go (skeleton_lists left.now) result.places result.next log ≡ false }
    {
        let mut heads = Heads {
            places: [0; LOGS],
            next: self.next,
        };
        let mut roster = Roster::new(left, &heads);
        while let Some(log) = roster.first() {
            self.let_go(left, &mut roster, &mut heads, log);
        }
        heads
    }

    /// The ring with the places that its entries have in the whole logs.
    fn whole_ring(&self, ring: &Ring) -> Ring
        requires { All (λ knot. (knot.log < 32) × (slice_index self.now.places knot.log + knot.at < 2 ^ 32))
            ring.now.items }
        ensures { result.items ≡ map (knot_behind self.now.places) ring.now.items }
    {
        let mut whole = Ring::new();
        for knot in ring.as_slice() {
            whole.push(Knot {
                log: knot.log,
                at: self.gone(knot.log) as u32 + knot.at,
            });
        }
        whole
    }

    /// Whether what is left can go too, so that all logs have an order. Where it cannot, the answer is the ring of logs
    /// that wait for one another when nothing more can go, and there is no order.
    pub fn finish(&self, left: &[Skeleton]) -> Result<(), Ring>
        requires few { length left.now ≤ 32 }
        requires reached { (skeletons : List (List (ℕ × ℕ))) × AreLogs skeletons
            × HasReached skeletons self.now (skeleton_lists left.now) }
        ensures order { OnOk result (OfReached self.now (skeleton_lists left.now) HasAnOrder) }
        ensures ring { IfErr result (λ ring. OfReached self.now (skeleton_lists left.now)
            (λ skeletons. IsStuckRing skeletons ring.items)) }
        ensures shown { IfErr result (λ ring. OfReached self.now (skeleton_lists left.now)
            (λ skeletons. IsRing skeletons ring.items)) }
        ensures none { IfErr result (λ _. OfReached self.now (skeleton_lists left.now) HasNoOrder) }
    {
        let heads = self.run_on(left);
        match heads.first_left(left) {
            None => Ok(()),
            Some(start) => Err(self.whole_ring(&heads.ring(left, start))),
        }
    }
}
