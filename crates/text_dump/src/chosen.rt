//! The lines that were chosen and did not go out yet.

ghost use Rattle.std.specs.Prelude.{◌≡◌, ◌<◌, ◌+◌, ◌^◌, ◌++◌, ◌∷◌, ◌↔◌, ◌&&◌};
ghost use Rattle.std.specs.Prelude.{ℕ, List, [], length, map, take, codes, string_bytes, None, Some};
ghost use Rattle.std.specs.Prelude.{OnOk, OnErr, IfOk, IsErr, if◌then◌else◌};
ghost use Rattle.std.specs.List.{concat};
ghost use Rattle.run_stream.specs.Account.{WentOut};
ghost use Rattle.run_stream.specs.Counted.{failures_of, account_of};
ghost use Rattle.text_print.specs.Text.{line_text};
ghost use Rattle.text_dump.specs.Lines.{placed_line, len_of, memory_part, record_part};
ghost use Rattle.text_dump.specs.Chosen.{is_late, last_of, marked_line, memory_candidate, record_candidate, taken_from};

use crate::choice::Choice;
use crate::lines::put_line;
use lf_codec::{Header, Reader, record_len};
use lf_rules::NoMemory;
use run_stream::{Counted, NotWritten, put};
use std::alloc::{AllocError, Global};
use std::collections::VecDeque;
use std::io::Write;
use text_print::{PlacedLine, TextLine};

/// The lines that were chosen and did not go out yet.
#[derive(Drop)]
pub struct Chosen {
    choice: Choice,
    alloc: Global,
    /// The header's line, and behind it those that go out as soon as they are read.
    text: String,
    /// The last lines, where those are asked for.
    lines: VecDeque<String>,
}

/// A line with its offset.
fn placed(alloc: Global, line: TextLine<'_>, offset: u64) -> Result<String, AllocError>
    ensures { IfOk result (λ text. string_bytes text ≡ placed_line (line_text line.entry) offset) }
{
    let placed = PlacedLine { line, offset };
    format!(in alloc; "{placed}\n")
}

/// Puts a line with its offset behind the text, with a word that says that lines may be left out.
fn put_marked(text: &mut String, line: TextLine<'_>, offset: u64) -> Result<(), AllocError>
    ensures { OnOk result (string_bytes text.new
        ≡ string_bytes text.old ++ placed_line (line_text line.entry ++ codes " part") offset) }
{
    write!(text, "{line} part ; at {offset}\n")?;
    Ok(())
}

/// Writes the lines, one after another.
fn put_lines<W: Write>(
    lines: &mut VecDeque<String>,
    writer: &mut Counted<W>,
) -> Result<(), NotWritten>
    requires { failures_of writer.old ≡ 0 }
    ensures whole { OnOk result (WentOut (account_of W.contents writer.old) (account_of W.contents writer.new)
        (concat (map string_bytes lines.old.items))) }
    ensures failed { IsErr result ↔ (0 < failures_of writer.new) }
    ensures prefix { OnErr result ((n : ℕ) ×
        WentOut (account_of W.contents writer.old) (account_of W.contents writer.new)
        (take n (concat (map string_bytes lines.old.items)))) }
{
    while let Some(line) = lines.pop_front() {
        put(writer, line.as_bytes())?;
    }
    Ok(())
}

impl Chosen {
    ghost use Rattle.text_dump.specs.Choosing.{Holds, TellsAtOnce, rest_of};

    /// Nothing was chosen yet. It takes no memory.
    pub fn new(alloc: Global, choice: Choice) -> Chosen
        ensures holds { Holds result [] [] [] }
        ensures choice { result.choice ≡ choice }
    {
        Chosen {
            choice,
            alloc,
            text: String::new(alloc),
            lines: VecDeque::new(alloc),
        }
    }

    /// Adds the line of the header, which comes first.
    pub fn add_header(&mut self, header: &Header) -> Result<(), AllocError>
        ensures holds { (out head : List ℕ) → Holds self.old out head [] →
            OnOk result (Holds self.new out (head ++ marked_line header.now) []) }
        ensures choice { self.new.choice ≡ self.old.choice }
    {
        put_marked(&mut self.text, TextLine::Header(header), 0)?;
        Ok(())
    }

    /// Keeps a line as the last of at most so many.
    fn keep(&mut self, most: u32, line: TextLine<'_>, offset: u64) -> Result<(), NoMemory>
        ensures kept { (lines : List (List ℕ)) → map string_bytes self.old.lines.items ≡ last_of (Some most) lines →
            OnOk result (map string_bytes self.new.lines.items
            ≡ last_of (Some most) (lines ++ placed_line (line_text line.entry) offset ∷ [])) }
        ensures rest { self.new ≡ record self.old { lines = self.new.lines } }
    {
        let text = placed(self.alloc, line, offset)?;
        self.lines.push_back(text)?;
        if self.lines.len() > most as usize {
            self.lines.pop_front();
        }
        Ok(())
    }

    /// Adds a line.
    fn push(&mut self, line: TextLine<'_>, offset: u64) -> Result<(), NoMemory>
        ensures holds { (out head : List ℕ) (lines : List (List ℕ)) → Holds self.old out head lines →
            OnOk result (Holds self.new out head (lines ++ placed_line (line_text line.entry) offset ∷ [])) }
        ensures choice { self.new.choice ≡ self.old.choice }
    {
        match self.choice.last {
            None => put_line(&mut self.text, line, offset)?,
            Some(most) => self.keep(most, line, offset)?,
        }
        Ok(())
    }

    /// Adds the line of a part that begins here, where it fits and begins late enough.
    fn add(&mut self, fits: bool, line: TextLine<'_>, offset: u64) -> Result<(), NoMemory>
        ensures holds { (out head : List ℕ) (lines : List (List ℕ)) → Holds self.old out head lines →
            OnOk result (Holds self.new out head (lines ++ (if fits && is_late self.old.choice.from offset
            then placed_line (line_text line.entry) offset ∷ [] else []))) }
        ensures choice { self.new.choice ≡ self.old.choice }
    {
        if fits && self.choice.is_late(offset) {
            return self.push(line, offset);
        }
        Ok(())
    }

    /// Takes all memory records, the first of which begins at this offset, and adds the lines of those that
    /// are chosen. It says where they end.
    pub fn add_memory(&mut self, reader: &mut Reader, offset: u64) -> Result<u64, NoMemory>
        requires { offset + len_of (map memory_part reader.old.memory) < 2 ^ 63 }
        ensures taken { OnOk result (reader.new ≡ record reader.old { memory = [] }) }
        ensures holds { (out head : List ℕ) (lines : List (List ℕ)) → Holds self.old out head lines →
            OnOk result (Holds self.new out head (lines
            ++ taken_from self.old.choice offset (map (memory_candidate self.old.choice) reader.old.memory))) }
        ensures choice { self.new.choice ≡ self.old.choice }
        ensures end { IfOk result (λ to. to ≡ offset + len_of (map memory_part reader.old.memory)) }
    {
        let mut at = offset;
        while let Some((block, bytes)) = reader.take_memory() {
            let line = TextLine::Memory {
                block,
                bytes: &bytes,
            };
            let fits = self.choice.fits_memory(block);
            self.add(fits, line, at)?;
            at += 4 + bytes.len() as u64;
        }
        Ok(at)
    }

    /// Takes all event records, the first of which begins at this offset, counts them, and adds the lines of
    /// those that are chosen. It says where they end.
    pub fn add_records(
        &mut self,
        reader: &mut Reader,
        header: &Header,
        offset: u64,
        count: &mut u64,
    ) -> Result<u64, NoMemory>
        requires room { offset + len_of (map record_part reader.old.records) < 2 ^ 63 }
        requires few { count.old + length reader.old.records < 2 ^ 63 }
        ensures taken { OnOk result (reader.new ≡ record reader.old { records = [] }) }
        ensures holds { (out head : List ℕ) (lines : List (List ℕ)) → Holds self.old out head lines →
            OnOk result (Holds self.new out head (lines ++ taken_from self.old.choice offset
            (map (record_candidate self.old.choice header.now) reader.old.records))) }
        ensures choice { self.new.choice ≡ self.old.choice }
        ensures end { IfOk result (λ to. to ≡ offset + len_of (map record_part reader.old.records)) }
        ensures counted { OnOk result (count.new ≡ count.old + length reader.old.records) }
    {
        let mut at = offset;
        while let Some(item) = reader.take() {
            let fits = self.choice.fits_record(header, &item);
            self.add(fits, TextLine::Event(&item), at)?;
            at += record_len(&item);
            *count += 1;
        }
        Ok(at)
    }

    /// Writes the lines that go out as soon as they are read.
    pub fn tell_at_once<W: Write>(&mut self, writer: &mut Counted<W>) -> Result<(), NotWritten>
        requires { failures_of writer.old ≡ 0 }
        ensures whole { OnOk result (TellsAtOnce self.old.choice.last self.old self.new
            (account_of W.contents writer.old) (account_of W.contents writer.new)) }
        ensures failed { IsErr result ↔ (0 < failures_of writer.new) }
        ensures prefix { OnErr result ((self.old.choice.last ≡ None) × ((n : ℕ) ×
            WentOut (account_of W.contents writer.old) (account_of W.contents writer.new)
            (take n (string_bytes self.old.text)))) }
        ensures choice { self.new.choice ≡ self.old.choice }
    {
        match self.choice.last {
            Some(_) => Ok(()),
            None => {
                put(writer, self.text.as_bytes())?;
                self.text.clear();
                Ok(())
            }
        }
    }

    /// Writes all lines that did not go out yet. It is the last call.
    pub fn tell<W: Write>(&mut self, writer: &mut Counted<W>) -> Result<(), NotWritten>
        requires { failures_of writer.old ≡ 0 }
        ensures whole { OnOk result
            (WentOut (account_of W.contents writer.old) (account_of W.contents writer.new) (rest_of self.old)) }
        ensures failed { IsErr result ↔ (0 < failures_of writer.new) }
        ensures prefix { OnErr result ((n : ℕ) ×
            WentOut (account_of W.contents writer.old) (account_of W.contents writer.new) (take n (rest_of self.old))) }
    {
        put(writer, self.text.as_bytes())?;
        put_lines(&mut self.lines, writer)?;
        Ok(())
    }
}
