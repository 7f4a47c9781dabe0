//! The text of a fault of a trace's bytes.

ghost use Rattle.std.specs.Prelude.{◌≡◌, drop, Some};
ghost use Rattle.explain_refusal.specs.Format.{block_before, part_line, has_text, field_line, lengths_line};
ghost use Rattle.explain_refusal.specs.Format.{behind_text};
ghost use Rattle.explain_refusal.specs.Format.{found_text, refusal_text};

use crate::allowed::Allowed;
use crate::bytes::{ListedBytes, behind, header_at, u32_at, up_to};
use crate::field::{Field, FieldValue};
use crate::finding::{Finding, Place};
use crate::part::Part;
use lf_codec::{CodecFault, Header};
use std::fmt;

/// Why bytes are no trace. Its text is two lines, each with its newline: the bytes of the part in which the fault
/// stands, and what is wrong there. Where memory ran out it is one line.
#[derive(Clone, Copy)]
pub struct FormatRefusal<'a> {
    /// The whole trace.
    pub bytes: &'a [u8],
    pub fault: CodecFault,
    /// How many event records stand before the fault.
    pub count: u64,
}

/// The bytes from an offset on.
fn from_offset(bytes: &[u8], offset: u64) -> &[u8]
    ensures { result.now ≡ drop offset bytes.now }
{
    if offset < bytes.len() as u64 {
        behind(bytes, offset as usize)
    } else {
        &[]
    }
}

/// The block of the memory record before the one at an offset.
fn block_before(header: &Header, bytes: &[u8], offset: u64) -> u32
    ensures { result ≡ block_before header.now bytes.now offset }
{
    let len = 4 + u64::from(header.block);
    u32_at(from_offset(bytes, offset.saturating_sub(len)), 0)
}

/// The line of a part, with bytes of it.
#[derive(Clone, Copy)]
struct PartLine<'a> {
    name: &'static str,
    offset: u64,
    bytes: &'a [u8],
}

impl fmt::Display for PartLine<'_> {
    ghost output = { λ line. Some (part_line line.name.now line.offset line.bytes.now) };

    fn fmt<W: fmt::Write>(&self, f: &mut fmt::Formatter<W>) -> fmt::Result {
        let PartLine {
            name,
            offset,
            bytes,
        } = *self;
        let listed = ListedBytes(bytes);
        write!(f, "the {name} at {offset} has these bytes:{listed}\n")
    }
}

/// The bytes that a part has.
#[derive(Clone, Copy)]
struct HasBytes<'a> {
    part: Part,
    header: &'a Header,
    offset: u64,
    bytes: &'a [u8],
}

impl fmt::Display for HasBytes<'_> {
    ghost output = { λ it. Some (has_text it.part it.header.now it.offset it.bytes.now) };

    fn fmt<W: fmt::Write>(&self, f: &mut fmt::Formatter<W>) -> fmt::Result {
        let len = self.part.len(self.header, self.bytes);
        let line = PartLine {
            name: self.part.name(),
            offset: self.offset,
            bytes: up_to(self.bytes, len),
        };
        write!(f, "{line}")
    }
}

/// A field, what stands in it, and what it may have.
#[derive(Clone, Copy)]
struct FieldLine<'a> {
    field: Field,
    allowed: Allowed,
    bytes: &'a [u8],
}

impl fmt::Display for FieldLine<'_> {
    ghost output = { λ line. Some (field_line line.field line.allowed line.bytes.now) };

    fn fmt<W: fmt::Write>(&self, f: &mut fmt::Formatter<W>) -> fmt::Result {
        let FieldLine {
            field,
            allowed,
            bytes,
        } = *self;
        let value = FieldValue { field, bytes };
        write!(f, "  {field}:{value}; {allowed}\n")
    }
}

/// How many bytes of a part are there, how many are due, and within what they end.
#[derive(Clone, Copy)]
struct LengthsLine {
    there: u64,
    due: u64,
    name: &'static str,
}

impl fmt::Display for LengthsLine {
    ghost output = { λ line. Some (lengths_line line.there line.due line.name.now) };

    fn fmt<W: fmt::Write>(&self, f: &mut fmt::Formatter<W>) -> fmt::Result {
        let LengthsLine { there, due, name } = *self;
        write!(
            f,
            "  bytes there: {there}, bytes due: {due}; the trace ends within the {name}\n"
        )
    }
}

/// The bytes behind the end record, and how many there are.
#[derive(Clone, Copy)]
struct BehindLines<'a> {
    offset: u64,
    bytes: &'a [u8],
}

impl fmt::Display for BehindLines<'_> {
    ghost output = { λ lines. Some (behind_text lines.offset lines.bytes.now) };

    fn fmt<W: fmt::Write>(&self, f: &mut fmt::Formatter<W>) -> fmt::Result {
        let BehindLines { offset, bytes } = *self;
        let listed = ListedBytes(bytes);
        let len = bytes.len();
        write!(
            f,
            "behind the end record, from {offset} on, are these bytes:{listed}\n  bytes too many: {len}\n"
        )
    }
}

/// What is wrong at a part.
#[derive(Clone, Copy)]
struct Found<'a> {
    finding: Finding,
    has: HasBytes<'a>,
}

impl fmt::Display for Found<'_> {
    ghost output = { λ it. Some (found_text it.finding it.has.part it.has.header.now it.has.offset it.has.bytes.now) };

    fn fmt<W: fmt::Write>(&self, f: &mut fmt::Formatter<W>) -> fmt::Result {
        let Found { finding, has } = *self;
        let HasBytes {
            part,
            header,
            offset,
            bytes,
        } = has;
        match finding {
            Finding::Field(field, allowed) => {
                let line = FieldLine {
                    field,
                    allowed,
                    bytes,
                };
                write!(f, "{has}{line}")
            }
            Finding::Ends => {
                let line = LengthsLine {
                    there: bytes.len() as u64,
                    due: part.len(header, bytes),
                    name: part.end_name(header, bytes),
                };
                write!(f, "{has}{line}")
            }
            Finding::GoesOn => {
                let lines = BehindLines { offset, bytes };
                write!(f, "{lines}")
            }
            Finding::Memory => write!(
                f,
                "memory ran out at offset {offset}; no check had failed\n"
            ),
        }
    }
}

impl fmt::Display for FormatRefusal<'_> {
    ghost output = { λ it. Some (refusal_text it.bytes.now it.fault.cause it.fault.offset it.count) };

    fn fmt<W: fmt::Write>(&self, f: &mut fmt::Formatter<W>) -> fmt::Result {
        let CodecFault { cause, offset } = self.fault;
        let header = header_at(self.bytes);
        let bytes = from_offset(self.bytes, offset);
        let part = Part::of(&header, offset, bytes);
        let place = Place {
            header: &header,
            part,
            bytes,
            block: block_before(&header, self.bytes, offset),
            count: self.count,
        };
        let found = Found {
            finding: place.finding(cause),
            has: HasBytes {
                part,
                header: &header,
                offset,
                bytes,
            },
        };
        write!(f, "{found}")
    }
}
