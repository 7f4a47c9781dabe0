//! The records of a trace in the form of their bytes.

ghost use Rattle.std.specs.Prelude.{◌≡◌, ℕ, List, [], ◌++◌, IfOk, OnOk};
ghost use Rattle.lf_rules.specs.declared.event.Record.{Record};
ghost use Rattle.lf_rules.specs.Fits.{Bytes};
ghost use Rattle.lf_codec.specs.Laws.{IsSomeTrace};
ghost use Rattle.lf_codec.specs.Reader.{HasRead, with_records};
ghost use Rattle.lf_codec.specs.Trace.{FitsTrace};
ghost use Rattle.lf_verdict.specs.Breaking.{first_offset};
ghost use Rattle.explain_why.specs.Packing.{IsPacking, HasMemory, IsPackingSoFar};
ghost use Rattle.explain_why.specs.Taken.{HasTakenAll};

use crate::parts::take_memory;
use lf_codec::{CodecCause, Header, Packed, Reader, read_so_far};
use lf_rules::{Memory, NoMemory};
use std::alloc::Global;

/// The memory and the records of a trace.
#[derive(Drop)]
pub struct Packing {
    pub memory: Memory,
    pub records: Packed,
    /// The offset of the first record, behind the header and the memory.
    pub start: u64,
}

/// The offset of the first record of a trace with this header.
fn first_record_at(header: &Header) -> u64
    ensures { (memory : List (ℕ × Bytes)) (records : List Record) → FitsTrace header.now memory records
        → result ≡ first_offset header.now memory }
{
    16 + u64::from(header.memory_count) * (4 + u64::from(header.block))
}

/// Packs the records of these bytes. A fault of the format is none here: what stands before it is packed.
fn pack(reader: &mut Reader, bytes: &[u8], records: &mut Packed) -> Result<(), NoMemory>
    ensures read { (fed : List ℕ) (memory : List (ℕ × Bytes)) (taken : List Record) →
        HasRead (with_records records.old.records reader.old) fed memory taken →
        OnOk result (HasRead (with_records records.new.records reader.new) (fed ++ bytes.now) memory taken) }
    ensures drained { reader.old.records ≡ [] → OnOk result (reader.new.records ≡ []) }
{
    match reader.pack(bytes, records) {
        Ok(()) => Ok(()),
        Err(told) => match told.fault().cause {
            CodecCause::NoMemory => Err(NoMemory),
            _ => Ok(()),
        },
    }
}

/// Reads the bytes by a reader that has read nothing, and takes what it finds. A record takes about the room of its
/// bytes.
fn pack_all(alloc: Global, reader: &mut Reader, bytes: &[u8]) -> Result<(Memory, Packed), NoMemory>
    requires { HasRead reader.old [] [] [] }
    ensures { IfOk result (λ all. HasTakenAll reader.new bytes.now all.0.items all.1.records) }
{
    let mut records = Packed::new(alloc);
    pack(reader, bytes, &mut records)?;
    let mut memory = Vec::new(alloc);
    take_memory(reader, &mut memory)?;
    Ok((memory, records))
}

/// The memory and the records of the trace in these bytes.
pub fn packed_in(alloc: Global, bytes: &[u8]) -> Result<Packing, NoMemory>
    requires { IsSomeTrace bytes.now }
    ensures { IfOk result (IsPacking bytes.now) }
{
    let mut reader = Reader::new(alloc);
    let (memory, records) = pack_all(alloc, &mut reader, bytes)?;
    let Ok(header) = reader.finish() else {
        unreachable!()
    };
    Ok(Packing {
        start: first_record_at(&header),
        memory,
        records,
    })
}

/// The memory and the records in these bytes, which begin a trace, up to a fault of the format.
pub(crate) fn packed_so_far(alloc: Global, bytes: &[u8]) -> Result<Packing, NoMemory>
    requires { HasMemory bytes.now }
    ensures { IfOk result (IsPackingSoFar bytes.now) }
{
    read_so_far();
    let mut reader = Reader::new(alloc);
    let (memory, records) = pack_all(alloc, &mut reader, bytes)?;
    let Some(header) = reader.header() else {
        unreachable!()
    };
    Ok(Packing {
        start: first_record_at(&header),
        memory,
        records,
    })
}
