//! The records that were read and are not drawn yet.

ghost use Rattle.std.specs.Prelude.{◌≡◌, ◌<◌, ◌++◌, ◌∷◌, ◌↔◌, [], List, length, drop, OnOk, MatchOption, IsTrue};
ghost use Rattle.lf_rules.specs.declared.event.Record.{Record};
ghost use Rattle.std.specs.List.{All};
ghost use Rattle.lf_rules.specs.Run.{of_log, Interleaves};
ghost use Rattle.wave_order.specs.Ordered.{without_next};
ghost use Rattle.wave_draw.specs.Turns.{queued};

use lf_rules::{NoMemory, Record};
use std::alloc::Global;
use std::collections::VecDeque;

/// The records that wait, log by log.
#[derive(Drop)]
pub struct Queues {
    alloc: Global,
    logs: Vec<VecDeque<Record>>,
}

impl Queues {
    /// No record waits. It takes no memory.
    pub fn new(alloc: Global) -> Queues
        ensures { Interleaves (queued result) [] }
    {
        Queues {
            alloc,
            logs: Vec::new(alloc),
        }
    }

    /// Makes place for the log and for those before it.
    fn reach(&mut self, log: usize) -> Result<(), NoMemory>
        requires { log < 256 }
        ensures reached { OnOk result (log < length self.new.logs.items) }
        ensures same { (records : List Record) → Interleaves (queued self.old) records →
            OnOk result (Interleaves (queued self.new) records) }
    {
        while self.logs.len() <= log {
            self.logs.push(VecDeque::new(self.alloc))?;
        }
        Ok(())
    }

    /// Keeps a record behind those of its log.
    pub fn push(&mut self, item: Record) -> Result<(), NoMemory>
        ensures { (records : List Record) → Interleaves (queued self.old) records →
            OnOk result (Interleaves (queued self.new) (records ++ item ∷ [])) }
    {
        let log = usize::from(item.log);
        self.reach(log)?;
        self.logs[log].push_back(item)?;
        Ok(())
    }

    /// Takes the next record of the log.
    pub fn take(&mut self, log: u8) -> Option<Record>
        ensures first { (records : List Record) → Interleaves (queued self.old) records →
            MatchOption result (of_log log records ≡ [])
            (λ item. of_log log records ≡ item ∷ drop 1 (of_log log records)) }
        ensures rest { (records : List Record) → Interleaves (queued self.old) records →
            Interleaves (queued self.new) (without_next log records) }
    {
        self.logs.get_mut(usize::from(log))?.pop_front()
    }

    /// Whether no record waits.
    pub fn is_empty(&self) -> bool
        ensures { IsTrue result ↔ All (λ log. log.items ≡ []) self.now.logs.items }
    {
        self.logs.iter().all(|log| log.is_empty())
    }
}
