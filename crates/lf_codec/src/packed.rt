//! Event records in the form of their bytes.

ghost use Rattle.std.specs.Prelude.{◌≡◌, ◌<◌, ◌≤◌, ◌+◌, ◌++◌, ◌∷◌, ◌↔◌, [], IsTrue, OnOk, OnErr, IfErr, length, take};
ghost use Rattle.std.specs.Prelude.{drop, slice_index_or};
ghost use Rattle.lf_rules.specs.Address.{no_bank};
ghost use Rattle.lf_rules.specs.declared.event.Event.TheVariants as Event;
ghost use Rattle.lf_rules.specs.declared.event.Record.{Record};
ghost use Rattle.lf_codec.specs.declared.header.Header.{Header};
ghost use Rattle.lf_codec.specs.Steps.{head_at};
ghost use Rattle.lf_codec.specs.Lent.{IsSpelling, spelled_record};
ghost use Rattle.lf_codec.specs.Packed.{SpellOne, StandLast, slice_of};

use crate::header::Header;
use crate::layout::lend_any;
use crate::stage::Head;
use crate::step::head_at;
use lf_rules::{Event, NO_BANK, NoMemory, Record};
use std::alloc::{AllocFailed, Global};
use std::marker::Model;
use trace_views::RecordView;

/// Where the bytes of a record stand, or the record elsewhere. The numbers are short, since one thread writes the forms
/// and others read them.
#[derive(Drop)]
enum Form {
    Spelled { start: u32, len: u32 },
    Apart(Box<Record>),
}

/// Event records that a reader found, in the form of their bytes: most take less than a fifth of the room
/// of a `Record`, which has room for a second-level block. They stand among the bytes of the pieces that were
/// read, which are kept as they came. A record that was put together from several pieces is kept whole.
#[derive(Drop)]
pub struct Packed {
    alloc: Global,
    header: Header,
    bytes: Vec<u8>,
    forms: Vec<Form>,
}

impl Model for Packed {
    ghost use Rattle.lf_codec.specs.Packed.{PackedRecords, records_in_forms, AreWithin};

    ghost Value = { PackedRecords };

    ghost view = { λ p. record {
      header = p.header;
      bytes = p.bytes.items;
      records =
          records_in_forms p.header p.bytes.items p.forms.items;
    } };

    ghost invariant = { λ p. AreWithin p.header p.bytes.items p.forms.items };
}

/// Room for a record that is built when it is looked at. Until then it holds a fence.
pub fn room() -> Record
    ensures { result ≡ record { log = 0; bank = no_bank; number = 0; event = Event.Fence } }
{
    Record {
        log: 0,
        bank: NO_BANK,
        number: 0,
        event: Event::Fence,
    }
}

/// So many of the bytes from this one on.
fn slice_of(bytes: &[u8], at: u32, len: u32) -> &[u8]
    requires { at + len ≤ length bytes.now }
    ensures { result.now ≡ slice_of bytes.now at len }
{
    let at = at as usize;
    &bytes[at..at + len as usize]
}

/// The head of the record that is spelled by so many of the bytes from this one on.
#[inline(always)]
fn head_of(bytes: &[u8], start: u32, len: u32) -> Head
    requires within { start + len ≤ length bytes.now }
    requires spelled { (h : Header) × SpellOne h (slice_of bytes.now start len) }
    ensures { result ≡ head_at (take 8 (slice_of bytes.now start len)) }
{
    let (first, _) = slice_of(bytes, start, len).split_at(8);
    head_at(first)
}

impl Packed {
    /// No record. It takes no memory.
    pub fn new(alloc: Global) -> Packed
        ensures { result.records ≡ [] }
    {
        Packed {
            alloc,
            header: Header {
                version: 1,
                ports: 1,
                banks: 1,
                block: 1,
                factor: 1,
                memory_count: 0,
            },
            bytes: Vec::new(alloc),
            forms: Vec::new(alloc),
        }
    }

    /// How many records there are.
    pub fn len(&self) -> usize
        ensures { result ≡ length self.now.records }
    {
        self.forms.len()
    }

    /// Whether there is none.
    pub fn is_empty(&self) -> bool
        ensures { IsTrue result ↔ (self.now.records ≡ []) }
    {
        self.forms.is_empty()
    }

    /// Lets all records go, and keeps the room for others.
    pub fn clear(&mut self)
        ensures { self.new.records ≡ [] }
    {
        self.forms.clear();
        self.bytes.clear();
    }

    /// From now on records are kept under this header, where there is no record. There is one header at a time.
    pub(crate) fn take_header(&mut self, header: &Header)
        ensures rest { self.new ≡ record self.old { header = self.new.header } }
        ensures header { self.old.records ≡ [] → self.new.header ≡ header.now }
    {
        if self.forms.is_empty() {
            self.header = *header;
        }
    }

    /// Whether records under this header can be kept as their bytes.
    pub(crate) fn takes(&mut self, header: &Header) -> bool
        ensures rest { self.new ≡ record self.old { header = self.new.header } }
        ensures header { IsTrue result → self.new.header ≡ header.now }
    {
        self.take_header(header);
        self.header == *header
    }

    /// Keeps the bytes of a piece behind the others.
    pub(crate) fn keep(&mut self, piece: &[u8]) -> Result<(), NoMemory>
        ensures kept { OnOk result (self.new ≡ record self.old { bytes = self.old.bytes ++ piece.now }) }
        ensures unchanged { OnErr result (self.new ≡ self.old) }
    {
        self.bytes.extend_from_slice(piece)?;
        Ok(())
    }

    /// Keeps a record where it stands, in so many bytes at the front of the last ones, and says whether there was
    /// room for it. No room is made here.
    #[inline(always)]
    pub(crate) fn push_spelled(&mut self, last: &[u8], len: usize) -> bool
        requires last { StandLast self.old.bytes last.now }
        requires len { len ≤ length last.now }
        requires spelled { SpellOne self.old.header (take len last.now) }
        ensures kept { IsTrue result → self.new ≡ record self.old
            { records = self.old.records ++ spelled_record self.old.header (take len last.now) ∷ [] } }
        ensures none { ¬ IsTrue result → self.new ≡ self.old }
    {
        let at = self.bytes.as_slice().len() - last.len();
        if self.forms.len() >= self.forms.capacity() || at + len >= 0x1_0000_0000 {
            return false;
        }
        self.forms.push_reserved(Form::Spelled {
            start: at as u32,
            len: len as u32,
        });
        true
    }

    /// Keeps a record whole. `NoMemory` where a growth was refused: then nothing has changed.
    pub fn push(&mut self, item: Record) -> Result<(), NoMemory>
        ensures kept { OnOk result (self.new.records ≡ self.old.records ++ item ∷ []) }
        ensures unchanged { OnErr result (self.new ≡ self.old) }
    {
        self.push_whole(item)?;
        Ok(())
    }

    /// Keeps the record whole and changes nothing else. Where there is no memory it gives the record back.
    pub(crate) fn push_whole(&mut self, item: Record) -> Result<(), AllocFailed<Record>>
        ensures kept { OnOk result (self.new ≡ record self.old { records = self.old.records ++ item ∷ [] }) }
        ensures given_back { IfErr result (λ refused. refused.value ≡ item) }
        ensures unchanged { OnErr result (self.new ≡ self.old) }
    {
        if self.forms.reserve(1).is_err() {
            return Err(AllocFailed { value: item });
        }
        let apart = Box::new(self.alloc, item)?;
        self.forms.push_reserved(Form::Apart(apart));
        Ok(())
    }

    /// The bank that the record names.
    pub fn bank(&self, at: usize) -> u8
        requires { at < length self.now.records }
        ensures { (d : Record) → result ≡ (slice_index_or self.now.records at d).bank }
    {
        match &self.forms[at] {
            Form::Spelled { start, len } => head_of(&self.bytes, *start, *len).bank,
            Form::Apart(item) => item.bank,
        }
    }

    /// The log of the record.
    pub fn log(&self, at: usize) -> u8
        requires { at < length self.now.records }
        ensures { (d : Record) → result ≡ (slice_index_or self.now.records at d).log }
    {
        match &self.forms[at] {
            Form::Spelled { start, len } => head_of(&self.bytes, *start, *len).log,
            Form::Apart(item) => item.log,
        }
    }

    /// The record's number.
    pub fn number(&self, at: usize) -> u32
        requires { at < length self.now.records }
        ensures { (d : Record) → result ≡ (slice_index_or self.now.records at d).number }
    {
        match &self.forms[at] {
            Form::Spelled { start, len } => head_of(&self.bytes, *start, *len).number,
            Form::Apart(item) => item.number,
        }
    }

    /// Lends the record by `place`. No memory is taken.
    #[inline(always)]
    pub fn lend_view<'a>(&'a self, at: usize, place: &mut RecordView<'a>)
        requires { at < length self.now.records }
        ensures { (d : Record) → place.new ≡ slice_index_or self.now.records at d }
    {
        match &self.forms[at] {
            Form::Spelled { start, len } => {
                lend_any(&self.header, slice_of(&self.bytes, *start, *len), place);
            }
            Form::Apart(item) => *place = RecordView::of(item),
        }
    }

    /// The bytes that spell the record, or none where it is kept whole.
    pub fn spelling(&self, at: usize) -> &[u8]
        requires { at < length self.now.records }
        ensures { (d : Record) → IsSpelling result.now (slice_index_or self.now.records at d) }
    {
        match &self.forms[at] {
            Form::Spelled { start, len } => slice_of(&self.bytes, *start, *len),
            Form::Apart(_) => &[],
        }
    }

    /// The record, which is put into `place` where it is kept as its bytes.
    pub fn lend<'a>(&'a self, at: usize, place: &'a mut Record) -> &'a Record
        requires { at < length self.now.records }
        ensures { (d : Record) → result.now ≡ slice_index_or self.now.records at d }
    {
        match &self.forms[at] {
            Form::Spelled { start, len } => {
                let mut view = RecordView::blank();
                lend_any(&self.header, slice_of(&self.bytes, *start, *len), &mut view);
                *place = view.to_record();
                place
            }
            Form::Apart(item) => item,
        }
    }
}
