//! Draws the wave of a trace from its bytes.

ghost use Rattle.std.specs.Prelude.{◌≡◌, ◌<◌, ◌+◌, ◌^◌, ◌++◌, ◌↔◌, ℕ, List, [], length, string_bytes, OnOk, IfOk};
ghost use Rattle.std.specs.Prelude.{IsTrue};
ghost use Rattle.lf_rules.specs.declared.event.Record.{Record};
ghost use Rattle.lf_codec.specs.Reading.{header_now};
ghost use Rattle.text_dump.specs.Dump.{HasFault};
ghost use Rattle.wave_draw.specs.declared.drawing.Drawing.{Drawing};
ghost use Rattle.wave_order.specs.Ordered.{DrawsEach};
ghost use Rattle.wave_draw.specs.Turns.{order_of, HasComeTo, HasRoom, DrawsMore};
ghost use Rattle.wave_draw.specs.Viewing.{IsDrawn, wave_of, drawing_of, head_due, or_header, DrawsAll, Closes};

use crate::drawing::Drawing;
use crate::fault::ViewFault;
use crate::order::Order;
use crate::records::{drop_memory, feed, put_records};
use lf_codec::{CodecFault, Reader};
use lf_rules::NoMemory;
use std::alloc::{AllocError, Global};
use wave_order::Clock;
use wave_signals::Wave;

/// Reads a trace that comes in pieces, and has the wave of the last piece.
#[derive(Drop)]
pub struct Drawer {
    reader: Reader,
    times: Option<Clock>,
    order: Option<Order>,
    wave: Wave,
    text: String,
    /// The head was put.
    begun: bool,
}

/// The order of these logs, before a record came.
fn order_for(alloc: Global, logs: Option<Vec<u8>>) -> Option<Order>
    ensures named { order_of result ≡ logs }
    ensures come { HasComeTo result [] }
{
    logs.map(|logs| Order::new(alloc, logs))
}

impl Drawer {
    /// A drawer that was shown nothing.
    pub fn new(alloc: Global, drawing: Drawing) -> Drawer
        ensures { IsDrawn drawing [] result }
    {
        Drawer {
            reader: Reader::new(alloc),
            times: drawing.times,
            order: order_for(alloc, drawing.order),
            wave: Wave::new(alloc, drawing.view),
            text: String::new(alloc),
            begun: false,
        }
    }

    /// The wave of the last piece.
    pub fn text(&self) -> &str
        ensures { result.now ≡ string_bytes self.now.text }
    {
        &self.text
    }

    /// Puts the head, where the header is there and the head was not put yet.
    fn put_head(&mut self) -> Result<(), AllocError>
        ensures text { OnOk result (string_bytes self.new.text ≡ string_bytes self.old.text
            ++ head_due self.old.begun (drawing_of self.old) (header_now self.old.reader)) }
        ensures begun { OnOk result (self.new.begun ≡ or_header self.old.begun (header_now self.old.reader)) }
        ensures reader { self.new.reader ≡ self.old.reader }
        ensures times { self.new.times ≡ self.old.times }
        ensures order { self.new.order ≡ self.old.order }
        ensures wave { self.new.wave ≡ self.old.wave }
    {
        if self.begun {
            return Ok(());
        }
        if let Some(header) = self.reader.header() {
            let times = self.times.is_some();
            self.wave.put_head(times, &header, &mut self.text)?;
            self.begun = true;
        }
        Ok(())
    }

    /// Takes all event records, and puts what is shown of those that are due.
    fn put_records(&mut self) -> Result<(), NoMemory>
        requires { HasRoom self.old.order self.old.wave (length self.old.reader.records) }
        ensures reader { OnOk result (self.new.reader ≡ record self.old.reader { records = [] }) }
        ensures times { OnOk result (self.new.times ≡ self.old.times) }
        ensures order { OnOk result (order_of self.new.order ≡ order_of self.old.order) }
        ensures begun { OnOk result (self.new.begun ≡ self.old.begun) }
        ensures drawn { (records : List Record) → HasComeTo self.old.order records →
            OnOk result (DrawsMore self.old.times self.old.order self.new.order self.old.wave self.new.wave
            (string_bytes self.old.text) (string_bytes self.new.text) records self.old.reader.records) }
    {
        let text = &mut self.text;
        match &mut self.order {
            None => put_records(&mut self.reader, &self.times, &mut self.wave, text),
            Some(order) => order.put_records(&mut self.reader, &self.times, &mut self.wave, text),
        }
    }

    /// Puts the wave of all that the reader has to give.
    fn draw(&mut self) -> Result<(), NoMemory>
        requires { HasRoom self.old.order self.old.wave (length self.old.reader.records) }
        ensures { (records : List Record) → HasComeTo self.old.order records →
            OnOk result (DrawsAll self.old self.new records) }
    {
        self.put_head()?;
        drop_memory(&mut self.reader);
        self.put_records()
    }

    /// Takes a piece and draws its wave, and tells whether a fault stands in what came so far. `NoMemory`
    /// says that a growth was refused.
    pub fn show(&mut self, piece: &[u8]) -> Result<bool, NoMemory>
        requires { (drawing : Drawing) × (bytes : List ℕ) × IsDrawn drawing bytes self.old ×
            (length bytes + length piece.now < 2 ^ 63) }
        ensures drawn { (drawing : Drawing) (bytes : List ℕ) → IsDrawn drawing bytes self.old →
            OnOk result (IsDrawn drawing (bytes ++ piece.now) self.new) }
        ensures wave { (drawing : Drawing) (bytes : List ℕ) → IsDrawn drawing bytes self.old →
            OnOk result (wave_of drawing (bytes ++ piece.now) ≡ wave_of drawing bytes ++ string_bytes self.new.text) }
        ensures enough { (drawing : Drawing) (bytes : List ℕ) → IsDrawn drawing bytes self.old →
            IfOk result (λ enough. IsTrue enough ↔ HasFault (bytes ++ piece.now)) }
    {
        let enough = feed(&mut self.reader, piece)?;
        self.text.clear();
        self.draw()?;
        Ok(enough)
    }

    /// Whether each place of the order and each record was drawn.
    fn has_drawn_each(&self) -> bool
        ensures { (records : List Record) → HasComeTo self.now.order records →
            IsTrue result ↔ DrawsEach (order_of self.now.order) records }
    {
        match &self.order {
            None => true,
            Some(order) => order.is_used_up(),
        }
    }

    /// The fault of a trace that ends here. `ViewFault::Order` says that it has none, and that the order does not name
    /// its records.
    pub fn close(&mut self) -> Result<Option<CodecFault>, ViewFault>
        ensures { (drawing : Drawing) (bytes : List ℕ) → IsDrawn drawing bytes self.old → Closes drawing bytes result }
    {
        if let Err(told) = self.reader.finish() {
            return Ok(Some(told.fault()));
        }
        if self.has_drawn_each() {
            Ok(None)
        } else {
            Err(ViewFault::Order)
        }
    }
}
