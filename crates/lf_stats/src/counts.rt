//! What is counted.

ghost use Rattle.std.specs.Prelude.{◌≡◌, ◌+◌, ◌<◌, ◌^◌, if◌then◌else◌};
ghost use Rattle.trace_views.specs.Views.{event_of};
ghost use Rattle.lf_stats.specs.Statistics.{is_hit, is_primary, is_merge, is_stall};

use trace_views::EventView;

/// What happened in level one of a bank.
#[derive(Clone, Copy, Debug, Default, PartialEq, Eq)]
pub struct BankStats {
    pub hits: u32,
    pub primary: u32,
    pub merges: u32,
    pub stalls: u32,
    /// The greatest number of registers that were held at once.
    pub peak: u32,
}

/// What happened in each bank and at each port.
#[derive(Debug, Drop, PartialEq, Eq)]
pub struct Stats {
    pub banks: Vec<BankStats>,
    /// For each port how many of its tags wait for a reply.
    pub unanswered: Vec<u32>,
}

impl BankStats {
    /// Counts the event by its kind.
    pub(crate) fn count(&mut self, event: &EventView<'_>)
        requires hits { self.old.hits < 2 ^ 29 }
        requires primary { self.old.primary < 2 ^ 29 }
        requires merges { self.old.merges < 2 ^ 29 }
        requires stalls { self.old.stalls < 2 ^ 29 }
        ensures hits { self.new.hits ≡ self.old.hits + (if is_hit (event_of event.now) then 1 else 0) }
        ensures primary { self.new.primary ≡ self.old.primary + (if is_primary (event_of event.now) then 1 else 0) }
        ensures merges { self.new.merges ≡ self.old.merges + (if is_merge (event_of event.now) then 1 else 0) }
        ensures stalls { self.new.stalls ≡ self.old.stalls + (if is_stall (event_of event.now) then 1 else 0) }
        ensures peak { self.new.peak ≡ self.old.peak }
    {
        match event {
            EventView::Hit { .. } => self.hits += 1,
            EventView::Primary { .. } => self.primary += 1,
            EventView::Merge { .. } => self.merges += 1,
            EventView::Stall { .. } => self.stalls += 1,
            _ => {}
        }
    }
}
