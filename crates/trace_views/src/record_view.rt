//! A record with its bytes where they stand.

ghost use Rattle.std.specs.Prelude.{◌≡◌};
ghost use Rattle.lf_rules.specs.Address.{no_bank};
ghost use Rattle.lf_rules.specs.declared.event.Event.TheVariants as events;
ghost use Rattle.trace_views.specs.Views.{CanBeKept, event_of};

use crate::event_view::{EventView, copy_event, lend_event};
use lf_rules::{NO_BANK, Record};
use std::marker::Model;

/// A record that is lent. A contract sees it as the `Record` that it shows.
#[derive(Drop)]
pub struct RecordView<'a> {
    log: u8,
    bank: u8,
    number: u32,
    event: EventView<'a>,
}

impl<'a> Model for RecordView<'a> {
    ghost use Rattle.lf_rules.specs.declared.event.Record.{Record};
    ghost use Rattle.trace_views.specs.Views.{CanBeKept, event_of};

    ghost Value = { Record };

    ghost view = { λ v. record { log = v.log; bank = v.bank; number = v.number; event = event_of v.event } };

    ghost invariant = { λ v. CanBeKept (event_of v.event) };
}

impl<'a> RecordView<'a> {
    /// The view of a record with this event, for which a `Record` has room.
    #[inline(always)]
    pub fn new(log: u8, bank: u8, number: u32, event: EventView<'a>) -> RecordView<'a>
        requires { CanBeKept (event_of event) }
        ensures { result ≡ record { log = log; bank = bank; number = number; event = event_of event.entry } }
    {
        RecordView {
            log,
            bank,
            number,
            event,
        }
    }

    /// A fence, for a place that is written before it is read.
    #[inline(always)]
    pub fn blank() -> RecordView<'a>
        ensures { result ≡ record { log = 0; bank = no_bank; number = 0; event = events.Fence } }
    {
        RecordView {
            log: 0,
            bank: NO_BANK,
            number: 0,
            event: EventView::Fence,
        }
    }

    /// Lends a record.
    pub fn of(item: &'a Record) -> RecordView<'a>
        ensures { result ≡ item.now }
    {
        RecordView {
            log: item.log,
            bank: item.bank,
            number: item.number,
            event: lend_event(&item.event),
        }
    }

    /// A copy of the record. It is apart, since a record takes much room.
    #[inline(never)]
    pub fn to_record(&self) -> Record
        ensures { result ≡ self.now }
    {
        Record {
            log: self.log,
            bank: self.bank,
            number: self.number,
            event: copy_event(&self.event),
        }
    }

    /// The log that it stands in.
    #[inline(always)]
    pub fn log(&self) -> u8
        ensures { result ≡ self.now.log }
    {
        self.log
    }

    /// The bank that it names.
    #[inline(always)]
    pub fn bank(&self) -> u8
        ensures { result ≡ self.now.bank }
    {
        self.bank
    }

    /// The bank's number of this event.
    #[inline(always)]
    pub fn number(&self) -> u32
        ensures { result ≡ self.now.number }
    {
        self.number
    }

    /// What happened. A match on it is one on the event of the record that the view shows.
    #[inline(always)]
    pub fn event(&self) -> &EventView<'a>
        ensures shown { event_of result.now ≡ self.now.event }
        ensures room { CanBeKept self.now.event }
    {
        &self.event
    }
}
