//! What stands in the bytes of a trace.

ghost use Rattle.std.specs.Prelude.{◌≡◌, ℕ, List, [], ◌++◌, IfOk, OnOk};
ghost use Rattle.lf_rules.specs.Fits.{Bytes};
ghost use Rattle.lf_codec.specs.Laws.{AreBytes, IsSomeTrace};
ghost use Rattle.lf_codec.specs.Reader.{HasRead};
ghost use Rattle.lf_codec.specs.Reading.{reading_of};
ghost use Rattle.lf_codec.specs.Trace.{IsTrace};
ghost use Rattle.explain_why.specs.Taken.{HasTakenAll};

use lf_codec::{CodecCause, Header, Reader};
use lf_rules::{Memory, NoMemory, Record};
use std::alloc::Global;

/// So many bytes are handed to the reader at once, so that few records wait in it.
const PIECE: usize = 1 << 16;

/// The memory and the records of a trace.
#[derive(Drop)]
pub struct Parts {
    pub memory: Memory,
    pub records: Vec<Record>,
}

/// Takes the memory that the reader has found.
pub(crate) fn take_memory(reader: &mut Reader, memory: &mut Memory) -> Result<(), NoMemory>
    ensures taken { (fed : List ℕ) (records : List Record) → HasRead reader.old fed memory.old.items records →
        OnOk result (HasRead reader.new fed memory.new.items records) }
    ensures records { reader.new.records ≡ reader.old.records }
    ensures none { OnOk result (reader.new.memory ≡ []) }
{
    while let Some(block) = reader.take_memory() {
        memory.push(block)?;
    }
    Ok(())
}

/// Takes the records that the reader has found.
fn take_records(reader: &mut Reader, records: &mut Vec<Record>) -> Result<(), NoMemory>
    ensures taken { (fed : List ℕ) (memory : List (ℕ × Bytes)) → HasRead reader.old fed memory records.old.items →
        OnOk result (HasRead reader.new fed memory records.new.items) }
    ensures memory { reader.new.memory ≡ reader.old.memory }
    ensures none { OnOk result (reader.new.records ≡ []) }
{
    while let Some(item) = reader.take() {
        records.push(item)?;
    }
    Ok(())
}

/// Feeds the reader. A fault of the format is none here: what stands before it can be taken.
fn feed(reader: &mut Reader, piece: &[u8]) -> Result<(), NoMemory>
    ensures { (fed : List ℕ) (memory : List (ℕ × Bytes)) (records : List Record) →
        HasRead reader.old fed memory records → OnOk result (HasRead reader.new (fed ++ piece.now) memory records) }
{
    match reader.feed(piece) {
        Ok(()) => Ok(()),
        Err(told) => match told.fault().cause {
            CodecCause::NoMemory => Err(NoMemory),
            _ => Ok(()),
        },
    }
}

/// Reads the bytes by a reader that has read nothing, and takes what it finds.
fn read_all(alloc: Global, reader: &mut Reader, bytes: &[u8]) -> Result<Parts, NoMemory>
    requires { HasRead reader.old [] [] [] }
    ensures { IfOk result (λ parts. HasTakenAll reader.new bytes.now parts.memory.items parts.records.items) }
{
    let mut memory = Vec::new(alloc);
    let mut records = Vec::new(alloc);
    let mut at = 0;
    while at < bytes.len() {
        let end = bytes.len().min(at + PIECE);
        feed(reader, &bytes[at..end])?;
        take_memory(reader, &mut memory)?;
        take_records(reader, &mut records)?;
        at = end;
    }
    Ok(Parts { memory, records })
}

/// The memory and the records that stand in the bytes, up to a fault of the format.
pub fn parts_in(alloc: Global, bytes: &[u8]) -> Result<Parts, NoMemory>
    ensures memory { IfOk result (λ parts. parts.memory.items ≡ (reading_of bytes.now).memory) }
    ensures records { IfOk result (λ parts. parts.records.items ≡ (reading_of bytes.now).records) }
    ensures are_bytes { OnOk result (AreBytes bytes.now) }
{
    let mut reader = Reader::new(alloc);
    read_all(alloc, &mut reader, bytes)
}

/// The records that stand in the bytes, up to a fault of the format.
pub fn records_in(alloc: Global, bytes: &[u8]) -> Result<Vec<Record>, NoMemory>
    ensures read { IfOk result (λ records. records.items ≡ (reading_of bytes.now).records) }
    ensures are_bytes { OnOk result (AreBytes bytes.now) }
{
    let Parts { records, .. } = parts_in(alloc, bytes)?;
    Ok(records)
}

/// A trace.
#[derive(Drop)]
pub struct Trace {
    pub header: Header,
    pub memory: Memory,
    pub records: Vec<Record>,
}

/// The trace in these bytes.
pub fn trace_in(alloc: Global, bytes: &[u8]) -> Result<Trace, NoMemory>
    requires { IsSomeTrace bytes.now }
    ensures { IfOk result (λ trace. IsTrace bytes.now trace.header trace.memory.items trace.records.items) }
{
    let mut reader = Reader::new(alloc);
    let Parts { memory, records } = read_all(alloc, &mut reader, bytes)?;
    let Ok(header) = reader.finish() else {
        unreachable!()
    };
    Ok(Trace {
        header,
        memory,
        records,
    })
}
