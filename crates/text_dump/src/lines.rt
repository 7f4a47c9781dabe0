//! The lines of what a reader has to give.

ghost use Rattle.std.specs.Prelude.{◌≡◌, ◌≤◌, ◌<◌, ◌+◌, ◌^◌, ◌++◌, [], map, length, string_bytes, OnOk, IfOk};
ghost use Rattle.text_print.specs.Text.{line_text};
ghost use Rattle.text_dump.specs.Lines.{placed_line, lines_from, len_of, memory_part, record_part};

use lf_codec::{Reader, record_len};
use std::alloc::AllocError;
use text_print::{PlacedLine, TextLine};

/// Puts a line with its offset behind the text.
pub fn put_line(text: &mut String, line: TextLine<'_>, offset: u64) -> Result<(), AllocError>
    ensures { OnOk result
        (string_bytes text.new ≡ string_bytes text.old ++ placed_line (line_text line.entry) offset) }
{
    let placed = PlacedLine { line, offset };
    write!(text, "{placed}\n")
}

/// Takes all memory records, the first of which begins at this offset, and puts their lines behind the
/// text. It says where they end.
pub fn put_memory(reader: &mut Reader, text: &mut String, offset: u64) -> Result<u64, AllocError>
    requires { offset + len_of (map memory_part reader.old.memory) < 2 ^ 63 }
    ensures taken { OnOk result (reader.new ≡ record reader.old { memory = [] }) }
    ensures lines { OnOk result (string_bytes text.new ≡
        string_bytes text.old ++ lines_from offset (map memory_part reader.old.memory)) }
    ensures end { IfOk result (λ to. to ≡ offset + len_of (map memory_part reader.old.memory)) }
{
    let mut at = offset;
    while let Some((block, bytes)) = reader.take_memory() {
        let line = TextLine::Memory {
            block,
            bytes: &bytes,
        };
        put_line(text, line, at)?;
        at += 4 + bytes.len() as u64;
    }
    Ok(at)
}

/// Takes all event records, the first of which begins at this offset, counts them, and puts their lines
/// behind the text. It says where they end.
pub fn put_records(
    reader: &mut Reader,
    text: &mut String,
    offset: u64,
    count: &mut u64,
) -> Result<u64, AllocError>
    requires room { offset + len_of (map record_part reader.old.records) < 2 ^ 63 }
    requires few { count.old + length reader.old.records < 2 ^ 63 }
    ensures taken { OnOk result (reader.new ≡ record reader.old { records = [] }) }
    ensures lines { OnOk result (string_bytes text.new ≡
        string_bytes text.old ++ lines_from offset (map record_part reader.old.records)) }
    ensures end { IfOk result (λ to. to ≡ offset + len_of (map record_part reader.old.records)) }
    ensures counted { OnOk result (count.new ≡ count.old + length reader.old.records) }
{
    let mut at = offset;
    while let Some(item) = reader.take() {
        put_line(text, TextLine::Event(&item), at)?;
        at += record_len(&item);
        *count += 1;
    }
    Ok(at)
}
