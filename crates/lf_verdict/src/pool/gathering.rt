//! A whole trace, whose records are moved to their logs as its pieces are read.

ghost use Rattle.std.specs.Prelude.{◌≡◌, ◌+◌, ◌++◌, ◌∷◌, ◌≤◌, ℕ, List, [], IfOk, IfErr, OnOk};
ghost use Rattle.lf_rules.specs.declared.event.Record.{Record};
ghost use Rattle.lf_rules.specs.Fits.{Bytes};
ghost use Rattle.lf_codec.specs.Reader.{HasRead};
ghost use Rattle.lf_rules.specs.Lists.{lists_of};
ghost use Rattle.lf_logs.specs.Lists.{logs_of};
ghost use Rattle.lf_verdict.specs.Legal.{joined};
ghost use Rattle.lf_verdict.specs.inner.Gathering.{HasGathered, IsWholeTrace, IsReadStop};

use crate::stop::Stop;
use lf_codec::{Header, Reader};
use lf_logs::split;
use lf_rules::{Logs, Memory, NoMemory, Record, Shape};
use std::alloc::Global;

/// What the bytes of a trace say, each record in its log.
#[derive(Drop)]
pub struct Trace {
    pub header: Header,
    pub memory: Memory,
    pub logs: Logs,
}

/// A trace that is being read.
#[derive(Drop)]
pub struct Gathered {
    pub reader: Reader,
    pub memory: Memory,
    pub logs: Logs,
}

/// Moves the record to the end of its log. One that names none of the logs is left out: it is a record
/// of another hierarchy.
fn put(logs: &mut Logs, item: Record) -> Result<(), NoMemory>
    ensures { (count : ℕ) (records : List Record) → lists_of logs.old ≡ logs_of count records
        → OnOk result (lists_of logs.new ≡ logs_of count (records ++ item ∷ [])) }
{
    let log = usize::from(item.log);
    if log >= logs.len() {
        return Ok(());
    }
    logs[log].push(item)?;
    Ok(())
}

/// Moves the records that the reader has found to their logs.
fn take_records(reader: &mut Reader, logs: &mut Logs) -> Result<(), NoMemory>
    ensures taken { OnOk result ((count : ℕ) (bytes : List ℕ) (memory : List (ℕ × Bytes)) (records : List Record)
        → HasRead reader.old bytes memory records → lists_of logs.old ≡ logs_of count records
        → (all : List Record) × (HasRead reader.new bytes memory all × (lists_of logs.new ≡ logs_of count all))) }
    ensures none { OnOk result (reader.new.records ≡ []) }
    ensures fault { reader.new.fault ≡ reader.old.fault }
    ensures memory { reader.new.memory ≡ reader.old.memory }
{
    while let Some(item) = reader.take() {
        put(logs, item)?;
    }
    Ok(())
}

/// Moves the memory records that the reader has found.
fn take_memory(reader: &mut Reader, memory: &mut Memory) -> Result<(), NoMemory>
    ensures taken { OnOk result ((bytes : List ℕ) (records : List Record)
        → HasRead reader.old bytes memory.old.items records → HasRead reader.new bytes memory.new.items records) }
    ensures none { OnOk result (reader.new.memory ≡ []) }
    ensures fault { reader.new.fault ≡ reader.old.fault }
{
    while let Some(item) = reader.take_memory() {
        memory.push(item)?;
    }
    Ok(())
}

impl Gathered {
    /// Nothing was read yet.
    fn new(alloc: Global, shape: &Shape) -> Result<Gathered, NoMemory>
        requires ports { shape.now.ports ≤ 16 }
        requires banks { shape.now.banks ≤ 16 }
        ensures { IfOk result (λ g. HasGathered (shape.now.ports + shape.now.banks) g []) }
    {
        Ok(Gathered {
            reader: Reader::new(alloc),
            memory: Vec::new(alloc),
            logs: split(alloc, shape.ports, shape.banks, Vec::new(alloc))?,
        })
    }

    /// Takes the next piece, and moves what it has.
    fn feed(&mut self, piece: &[u8]) -> Result<(), Stop>
        ensures ok { (count : ℕ) (bytes : List ℕ) → HasGathered count self.old bytes →
            OnOk result (HasGathered count self.new (bytes ++ piece.now)) }
        ensures err { (count : ℕ) (bytes : List ℕ) (rest : List ℕ) → HasGathered count self.old bytes
            → IfErr result (IsReadStop ((bytes ++ piece.now) ++ rest)) }
    {
        self.reader.feed(piece)?;
        take_memory(&mut self.reader, &mut self.memory)?;
        take_records(&mut self.reader, &mut self.logs)?;
        Ok(())
    }

    /// Takes all pieces.
    fn feed_all(&mut self, pieces: &[&[u8]]) -> Result<(), Stop>
        ensures ok { (count : ℕ) → HasGathered count self.old [] →
            OnOk result (HasGathered count self.new (joined pieces.now)) }
        ensures err { (count : ℕ) → HasGathered count self.old [] → IfErr result (IsReadStop (joined pieces.now)) }
    {
        for piece in pieces {
            self.feed(piece)?;
        }
        Ok(())
    }

    /// The trace, where its bytes end here.
    fn finish(self) -> Result<Trace, Stop>
        ensures ok { (count : ℕ) (bytes : List ℕ) → HasGathered count self bytes →
            IfOk result (IsWholeTrace count bytes) }
        ensures err { (count : ℕ) (bytes : List ℕ) → HasGathered count self bytes → IfErr result (IsReadStop bytes) }
    {
        let Gathered {
            mut reader,
            memory,
            logs,
        } = self;
        let header = reader.finish()?;
        Ok(Trace {
            header,
            memory,
            logs,
        })
    }
}

/// The trace of the bytes in these pieces, with as many logs as the shape has ports and banks.
pub fn read(alloc: Global, shape: &Shape, pieces: &[&[u8]]) -> Result<Trace, Stop>
    requires ports { shape.now.ports ≤ 16 }
    requires banks { shape.now.banks ≤ 16 }
    ensures ok { IfOk result (IsWholeTrace (shape.now.ports + shape.now.banks) (joined pieces.now)) }
    ensures err { IfErr result (IsReadStop (joined pieces.now)) }
{
    let mut gathered = Gathered::new(alloc, shape)?;
    gathered.feed_all(pieces)?;
    gathered.finish()
}
