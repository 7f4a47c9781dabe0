//! What is asked of a reader and of the writer.

use lf_codec::{CodecCause, CodecFault, Header, Packed, Reader, Told, encode, fits_trace, room};
use lf_rules::{Memory, NoMemory, Record};
use std::alloc::Global;
use std::process::Abort;
use std::test::Fail;
use trace_views::RecordView;

/// One port and one bank of blocks of 8 bytes.
pub const ONE_BANK: Header = Header {
    version: 1,
    ports: 1,
    banks: 1,
    block: 8,
    factor: 1,
    memory_count: 0,
};

/// Encodes what fits, which it asks first.
pub fn encoded(
    rt: &impl Abort,
    alloc: Global,
    header: &Header,
    memory: &Memory,
    records: &[Record],
) -> Result<Vec<u8>, NoMemory> {
    assert!(rt; fits_trace(header, memory, records));
    encode(alloc, header, memory, records)
}

/// Feeds a piece that has no fault. Nothing is said of the reader, which keeps the proofs of the callers short.
pub fn feed(reader: &mut Reader, piece: &[u8]) -> Result<(), Fail> {
    reader.feed(piece)?;
    Ok(())
}

/// Feeds a piece that has no fault, whose records go behind these.
pub fn pack(reader: &mut Reader, piece: &[u8], records: &mut Packed) -> Result<(), Fail> {
    reader.pack(piece, records)?;
    Ok(())
}

/// Fails where others are kept than these.
pub fn assert_packed(rt: &impl Abort, packed: &Packed, records: &[Record]) {
    assert_eq!(rt; packed.len(), records.len());
    assert_eq!(rt; packed.is_empty(), records.is_empty());
    let mut place = room();
    for at in 0..packed.len() {
        let item = records.get(at);
        assert_eq!(rt; Some(packed.bank(at)), item.map(|r| r.bank));
        assert_eq!(rt; Some(packed.log(at)), item.map(|r| r.log));
        assert_eq!(rt; Some(packed.number(at)), item.map(|r| r.number));
        let mut view = RecordView::blank();
        packed.lend_view(at, &mut view);
        assert!(rt; Some(&view.to_record()) == item);
        assert!(rt; Some(packed.lend(at, &mut place)) == item);
    }
}

/// Ends a trace that has no fault.
pub fn finish(reader: &mut Reader) -> Result<Header, Fail> {
    Ok(reader.finish()?)
}

/// Fails where other records come out than these.
fn assert_taken(rt: &impl Abort, reader: &mut Reader, records: &[Record]) {
    for item in records {
        assert!(rt; reader.take().as_ref() == Some(item));
    }
    assert!(rt; reader.take().is_none());
}

/// Reads a whole trace of one bank in these pieces, and asks that these records come out.
pub fn assert_reads(
    rt: &impl Abort,
    alloc: Global,
    pieces: &[&[u8]],
    records: &[Record],
) -> Result<(), Fail> {
    let mut reader = Reader::new(alloc);
    for piece in pieces {
        feed(&mut reader, piece)?;
    }
    assert_eq!(rt; finish(&mut reader)?, ONE_BANK);
    assert_eq!(rt; reader.header(), Some(ONE_BANK));
    assert_taken(rt, &mut reader, records);
    assert_eq!(rt; reader.take_memory(), None);
    Ok(())
}

/// The fault that the bytes are told to have, by the feed that has their last byte.
pub fn assert_fault(rt: &impl Abort, alloc: Global, bytes: &[u8], cause: CodecCause, offset: u64) {
    let fault = CodecFault { cause, offset };
    let mut reader = Reader::new(alloc);
    assert_eq!(rt; reader.feed(bytes), Err(Told::Fault(fault)));
    assert_eq!(rt; reader.feed(bytes), Err(Told::Failed(fault)));
    assert_eq!(rt; reader.finish(), Err(Told::Failed(fault)));
}
