//! The records that are left of each log.

ghost use Rattle.std.specs.Prelude.{◌≡◌, ◌<◌, ◌≤◌, ◌++◌, ◌∷◌, ℕ, List, [], true, false, length, MatchOption, OnOk, OnSome};
ghost use Rattle.lf_rules.specs.declared.event.Record.{Record};
ghost use Rattle.lf_rules.specs.Order.{log_at};
ghost use Rattle.wave_order.specs.Left.{queued, count_left, is_due_at, begins_due, rank_at, or_earlier, HasLeft};
ghost use Rattle.wave_order.specs.Left.{IsEarliest, TakesFirst};

use crate::clock::rank_of;
use crate::counts::Counts;
use crate::sought::Entry;
use explain_lines::Times;
use lf_rules::{NO_BANK, NoMemory, Record};
use std::alloc::Global;
use std::collections::VecDeque;

const BANKS: usize = 256;

/// Bank and number of each record that is left of each log, the number that comes next of each bank, and how many
/// records of each log came.
#[derive(Drop)]
pub struct Left {
    alloc: Global,
    logs: Vec<VecDeque<(u8, u32)>>,
    next: [u64; BANKS],
    came: Counts,
}

/// A log whose next record may come, and the rank of that record.
#[derive(Clone, Copy)]
pub(crate) struct Turn {
    rank: u64,
    log: usize,
}

impl Turn {
    /// The first of this one and of one of a lower log.
    fn or_earlier(self, other: Option<Turn>) -> Turn
        ensures { result ≡ or_earlier self other }
    {
        match other {
            Some(other) if other.rank <= self.rank => other,
            _ => self,
        }
    }
}

impl Left {
    /// No record was read. It takes no memory.
    pub fn new(alloc: Global) -> Left
        ensures { HasLeft result [] [] }
    {
        let came = Counts::new();
        Left {
            alloc,
            logs: Vec::new(alloc),
            next: [0; BANKS],
            came,
        }
    }

    /// Makes place for the log and for those before it.
    fn reach(&mut self, log: usize) -> Result<(), NoMemory>
        requires { log < 256 }
        ensures reached { OnOk result (log < length self.new.logs.items) }
        ensures same { (gone records : List Record) → HasLeft self.old gone records →
            OnOk result (HasLeft self.new gone records) }
    {
        while self.logs.len() <= log {
            self.logs.push(VecDeque::new(self.alloc))?;
        }
        Ok(())
    }

    /// A record was read that stands behind those of its log.
    pub fn push(&mut self, item: &Record) -> Result<(), NoMemory>
        ensures { (gone records : List Record) → HasLeft self.old gone records →
            OnOk result (HasLeft self.new gone (records ++ item.now ∷ [])) }
    {
        let log = usize::from(item.log);
        self.reach(log)?;
        self.logs[log].push_back((item.bank, item.number))?;
        Ok(())
    }

    /// Whether the record names no bank, or has the next number of its bank.
    fn is_due(&self, entry: (u8, u32)) -> bool
        ensures { result ≡ is_due_at self.now.next entry }
    {
        let (bank, number) = entry;
        bank >= NO_BANK || u64::from(number) == self.next[usize::from(bank)]
    }

    /// Whether the log's next record may come.
    fn can_come(&self, log: usize) -> bool
        ensures { result ≡ begins_due self.now.next (log_at (queued self.now) log) }
    {
        let Some(log) = self.logs.get(log) else {
            return false;
        };
        match log.front() {
            Some(entry) => self.is_due(*entry),
            None => false,
        }
    }

    /// The rank of the log's next record.
    fn rank(&self, times: &Option<Times>, log: usize) -> u64
        ensures { log < 256 → result ≡ rank_at times.now self.now log }
    {
        match u8::try_from(log) {
            Ok(log) => rank_of(times, log, self.came.of(log)),
            Err(_) => 0,
        }
    }

    /// The log whose next record may come and has the least rank, and of several the lowest.
    fn first(&self, times: &Option<Times>) -> Option<usize>
        ensures { MatchOption result
            ((log : ℕ) → begins_due self.now.next (log_at (queued self.now) log) ≡ false)
            (λ log. (log < length self.now.logs.items)
            × (begins_due self.now.next (log_at (queued self.now) log) ≡ true)
            × (length self.now.logs.items ≤ 256 → IsEarliest times.now self.now log)) }
    {
        let mut first: Option<Turn> = None;
        for log in 0..self.logs.len() {
            if !self.can_come(log) {
                continue;
            }
            let rank = self.rank(times, log);
            let turn = Turn { rank, log };
            first = Some(turn.or_earlier(first));
        }
        Some(first?.log)
    }

    /// The record comes that has the least rank of those that may come.
    pub(crate) fn take(&mut self, times: &Option<Times>) -> Option<Entry>
        ensures first { (gone records : List Record) → HasLeft self.old gone records →
            TakesFirst times.now gone records self.new result }
        ensures fewer { OnSome result (count_left (queued self.new) < count_left (queued self.old)) }
    {
        let at = self.first(times)?;
        let log = u8::try_from(at).ok()?;
        let (bank, number) = self.logs.get_mut(at)?.pop_front()?;
        self.next[usize::from(bank)] = u64::from(number) + 1;
        self.came.take(log);
        Some(Entry { log, bank, number })
    }
}
