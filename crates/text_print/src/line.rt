//! The lines of the text.

ghost use Rattle.std.specs.Prelude.{Some};
ghost use Rattle.text_print.specs.Text.{line_text, placed_text};

use crate::data::Hex;
use crate::record::RecordText;
use lf_codec::Header;
use lf_rules::Record;
use std::fmt;

/// A part of a trace that has a line of its own. Its text is without a newline.
#[derive(Clone, Copy)]
pub enum TextLine<'a> {
    /// What the trace says of the hierarchy.
    Header(&'a Header),
    /// The bytes of a block before the first event.
    Memory { block: u32, bytes: &'a [u8] },
    /// An event record.
    Event(&'a Record),
    /// The end, after so many event records.
    End { count: u64 },
}

impl fmt::Display for TextLine<'_> {
    ghost output = { λ line. Some (line_text line) };

    fn fmt<W: fmt::Write>(&self, f: &mut fmt::Formatter<W>) -> fmt::Result {
        match self {
            TextLine::Header(header) => {
                let Header {
                    version,
                    ports,
                    banks,
                    block,
                    factor,
                    memory_count,
                } = header;
                write!(
                    f,
                    "lfts version={version} ports={ports} banks={banks} block={block} factor={factor} memory={memory_count}"
                )
            }
            TextLine::Memory { block, bytes } => {
                let digits = Hex(bytes);
                write!(f, "memory block={block} bytes={digits}")
            }
            TextLine::Event(item) => {
                let text = RecordText(item);
                write!(f, "{text}")
            }
            TextLine::End { count } => write!(f, "end count={count}"),
        }
    }
}

/// A line, and in a comment the offset of its first byte in the trace.
#[derive(Clone, Copy)]
pub struct PlacedLine<'a> {
    pub line: TextLine<'a>,
    pub offset: u64,
}

impl fmt::Display for PlacedLine<'_> {
    ghost output = { λ placed. Some (placed_text placed.line placed.offset) };

    fn fmt<W: fmt::Write>(&self, f: &mut fmt::Formatter<W>) -> fmt::Result {
        let PlacedLine { line, offset } = self;
        write!(f, "{line} ; at {offset}")
    }
}
