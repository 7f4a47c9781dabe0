//! An order of the records of all logs.

ghost use Rattle.std.specs.Prelude.{◌≡◌, ◌<◌, ◌+◌, ◌++◌, ◌↔◌, [], List, length, string_bytes, option_to_list};
ghost use Rattle.std.specs.Prelude.{Some, OnOk, OnSome, IsTrue};
ghost use Rattle.lf_rules.specs.declared.event.Record.{Record};
ghost use Rattle.lf_rules.specs.Run.{Interleaves};
ghost use Rattle.wave_order.specs.Ordered.{Names};
ghost use Rattle.wave_draw.specs.Turns.{queued, IsPast, HasCome, TakesDue, DrawsDue, DrawsMore};

use crate::queues::Queues;
use crate::records::drop_records;
use lf_codec::Reader;
use lf_rules::{NoMemory, Record};
use std::alloc::Global;
use wave_order::Clock;
use wave_signals::Wave;

/// An order, and the records that came before their turn.
#[derive(Drop)]
pub struct Order {
    /// For each place the log whose next record comes there.
    logs: Vec<u8>,
    /// The place whose record comes next.
    next: usize,
    waiting: Queues,
}

impl Order {
    /// No record came. It takes no memory.
    pub fn new(alloc: Global, logs: Vec<u8>) -> Order
        ensures logs { result.logs ≡ logs }
        ensures come { HasCome result [] }
    {
        Order {
            logs,
            next: 0,
            waiting: Queues::new(alloc),
        }
    }

    /// Takes the record whose turn it is, where it came.
    fn take_due(&mut self) -> Option<Record>
        ensures logs { self.new.logs ≡ self.old.logs }
        ensures next { self.new.next ≡ self.old.next + length (option_to_list result) }
        ensures within { OnSome result (self.old.next < length self.old.logs.items) }
        ensures due { (records : List Record) → Interleaves (queued self.old.waiting) records →
            TakesDue self.old self.new records result }
    {
        let log = *self.logs.get(self.next)?;
        let item = self.waiting.take(log)?;
        self.next += 1;
        Some(item)
    }

    /// Puts what is shown of the records whose turn it is behind the text, one after another.
    fn put_due(
        &mut self,
        times: &Option<Clock>,
        wave: &mut Wave,
        text: &mut String,
    ) -> Result<(), NoMemory>
        requires { wave.old.place ≡ self.old.next }
        ensures logs { self.new.logs ≡ self.old.logs }
        ensures due { (records : List Record) → Interleaves (queued self.old.waiting) records →
            OnOk result (DrawsDue times.now self.old self.new wave.old wave.new
            (string_bytes text.old) (string_bytes text.new) records) }
    {
        while let Some(item) = self.take_due() {
            wave.put(times, &item, text)?;
        }
        Ok(())
    }

    /// Keeps all event records until their turn.
    fn keep(&mut self, reader: &mut Reader) -> Result<(), NoMemory>
        ensures taken { OnOk result (reader.new ≡ record reader.old { records = [] }) }
        ensures rest { OnOk result (self.new ≡ record self.old { waiting = self.new.waiting }) }
        ensures kept { (records : List Record) → Interleaves (queued self.old.waiting) records →
            OnOk result (Interleaves (queued self.new.waiting) (records ++ reader.old.records)) }
    {
        while let Some(item) = reader.take() {
            self.waiting.push(item)?;
        }
        Ok(())
    }

    /// Whether a record waits behind the last place, so that none that comes has a turn.
    fn is_past(&self) -> bool
        ensures { IsTrue result ↔ IsPast self.now }
    {
        self.next == self.logs.len() && !self.waiting.is_empty()
    }

    /// Takes all event records, and puts what is shown of those whose turn it is behind the text. Behind the last place
    /// only the records of one call wait.
    pub fn put_records(
        &mut self,
        reader: &mut Reader,
        times: &Option<Clock>,
        wave: &mut Wave,
        text: &mut String,
    ) -> Result<(), NoMemory>
        requires { wave.old.place ≡ self.old.next }
        ensures taken { OnOk result (reader.new ≡ record reader.old { records = [] }) }
        ensures logs { OnOk result (self.new.logs ≡ self.old.logs) }
        ensures drawn { (records : List Record) → HasCome self.old records →
            OnOk result (DrawsMore times.now (Some self.old) (Some self.new) wave.old wave.new
            (string_bytes text.old) (string_bytes text.new) records reader.old.records) }
    {
        if self.is_past() {
            drop_records(reader);
            return Ok(());
        }
        self.keep(reader)?;
        self.put_due(times, wave, text)
    }

    /// Whether the order has a place for each record that came, and no more.
    pub fn is_used_up(&self) -> bool
        ensures { (records : List Record) → HasCome self.now records →
            IsTrue result ↔ Names self.now.logs.items records }
    {
        self.next == self.logs.len() && self.waiting.is_empty()
    }
}
