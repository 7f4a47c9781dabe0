//! Makes the lines of a trace from its bytes.

ghost use Rattle.std.specs.Prelude.{◌≡◌, ◌<◌, ◌+◌, ◌^◌, ◌++◌, ◌↔◌, ℕ, List, [], length, string_bytes, OnOk, IfOk};
ghost use Rattle.std.specs.Prelude.{IsTrue, Some};
ghost use Rattle.lf_rules.specs.Fits.{Bytes};
ghost use Rattle.lf_rules.specs.declared.event.Record.{Record};
ghost use Rattle.lf_codec.specs.Reading.{header_now, trace_fault};
ghost use Rattle.lf_codec.specs.Reader.{HasRead};
ghost use Rattle.text_dump.specs.Lines.{end_line, end_before, closing, lines_of, closing_of, len_of};
ghost use Rattle.text_dump.specs.Chosen.{candidates, taken_from};
ghost use Rattle.text_dump.specs.Choosing.{Holds, HasChosen};
ghost use Rattle.text_dump.specs.Printing.{header_due, marked_due, given_by, parts_due, Puts, PrintsAll};
ghost use Rattle.text_dump.specs.Dump.{HasFault, IsShown};

use crate::chosen::Chosen;
use crate::lines::{put_line, put_memory, put_records};
use lf_codec::{CodecCause, CodecFault, Header, Reader, fault_so_far};
use lf_rules::NoMemory;
use std::alloc::{AllocError, Global};
use text_print::TextLine;

/// Reads a trace that comes in pieces, and has the lines of the last piece.
#[derive(Drop)]
pub struct Printer {
    reader: Reader,
    text: String,
    /// Where the next part begins.
    offset: u64,
    /// How many event records there were.
    records: u64,
}

/// Hands the reader a piece, and tells whether a fault stands in what it was fed so far. `NoMemory` says
/// that a growth was refused.
fn feed(reader: &mut Reader, piece: &[u8]) -> Result<bool, NoMemory>
    ensures read { (bytes : List ℕ) (memory : List (ℕ × Bytes)) (records : List Record) →
        HasRead reader.old bytes memory records → OnOk result (HasRead reader.new (bytes ++ piece.now) memory records) }
    ensures enough { (bytes : List ℕ) (memory : List (ℕ × Bytes)) (records : List Record) →
        HasRead reader.old bytes memory records →
        IfOk result (λ enough. IsTrue enough ↔ HasFault (bytes ++ piece.now)) }
{
    fault_so_far();
    match reader.feed(piece) {
        Ok(()) => Ok(false),
        Err(told) => match told.fault().cause {
            CodecCause::NoMemory => Err(NoMemory),
            _ => Ok(true),
        },
    }
}

impl Printer {
    /// A printer that was fed nothing. It takes no memory.
    pub fn new(alloc: Global) -> Printer
        ensures { IsShown [] result }
    {
        Printer {
            reader: Reader::new(alloc),
            text: String::new(alloc),
            offset: 0,
            records: 0,
        }
    }

    /// The lines of the last piece, or what stands behind the lines of the last one.
    pub fn text(&self) -> &str
        ensures { result.now ≡ string_bytes self.now.text }
    {
        &self.text
    }

    /// Puts the line of the header, where it is there and was not put yet.
    fn put_header(&mut self) -> Result<(), AllocError>
        ensures puts { OnOk result (Puts self.old self.new (header_due self.old.offset (header_now self.old.reader))) }
        ensures reader { self.new.reader ≡ self.old.reader }
        ensures records { self.new.records ≡ self.old.records }
    {
        if self.offset > 0 {
            return Ok(());
        }
        if let Some(header) = self.reader.header() {
            put_line(&mut self.text, TextLine::Header(&header), 0)?;
            self.offset = 16;
        }
        Ok(())
    }

    /// Puts the lines of all that the reader has to give.
    fn print(&mut self) -> Result<(), AllocError>
        requires room { self.old.offset + len_of (parts_due self.old) < 2 ^ 63 }
        requires count { self.old.records + length self.old.reader.records < 2 ^ 63 }
        ensures { OnOk result (PrintsAll self.old self.new) }
    {
        self.put_header()?;
        self.offset = put_memory(&mut self.reader, &mut self.text, self.offset)?;
        self.offset = put_records(
            &mut self.reader,
            &mut self.text,
            self.offset,
            &mut self.records,
        )?;
        Ok(())
    }

    /// Takes a piece and makes its lines, and tells whether a fault stands in what came so far. `NoMemory`
    /// says that a growth was refused.
    pub fn show(&mut self, piece: &[u8]) -> Result<bool, NoMemory>
        requires { (bytes : List ℕ) × IsShown bytes self.old × (length bytes + length piece.now < 2 ^ 63) }
        ensures shown { (bytes : List ℕ) → IsShown bytes self.old →
            OnOk result (IsShown (bytes ++ piece.now) self.new) }
        ensures lines { (bytes : List ℕ) → IsShown bytes self.old →
            OnOk result (lines_of (bytes ++ piece.now) ≡ lines_of bytes ++ string_bytes self.new.text) }
        ensures enough { (bytes : List ℕ) → IsShown bytes self.old →
            IfOk result (λ enough. IsTrue enough ↔ HasFault (bytes ++ piece.now)) }
    {
        let enough = feed(&mut self.reader, piece)?;
        self.text.clear();
        self.print()?;
        Ok(enough)
    }

    /// Adds the line of the header to the chosen lines, where it was not added yet.
    fn add_header(&mut self, chosen: &mut Chosen, header: &Header) -> Result<(), AllocError>
        ensures holds { (out head : List ℕ) (lines : List (List ℕ)) → Holds chosen.old out head lines →
            (self.old.offset ≡ 0 → lines ≡ []) →
            OnOk result (Holds chosen.new out (head ++ marked_due self.old.offset header.now) lines) }
        ensures choice { chosen.new.choice ≡ chosen.old.choice }
        ensures offset { OnOk result
            (self.new.offset ≡ self.old.offset + len_of (header_due self.old.offset (Some header.now))) }
        ensures rest { self.new ≡ record self.old { offset = self.new.offset } }
    {
        if self.offset == 0 {
            chosen.add_header(header)?;
            self.offset = 16;
        }
        Ok(())
    }

    /// Takes all that the reader has to give, and adds the lines of what is chosen.
    fn add_records(&mut self, chosen: &mut Chosen, header: &Header) -> Result<(), NoMemory>
        requires room { self.old.offset + len_of (given_by self.old.reader) < 2 ^ 63 }
        requires count { self.old.records + length self.old.reader.records < 2 ^ 63 }
        ensures holds { (out head : List ℕ) (lines : List (List ℕ)) → Holds chosen.old out head lines →
            OnOk result (Holds chosen.new out head (lines ++ taken_from chosen.old.choice self.old.offset
            (candidates chosen.old.choice header.now self.old.reader.memory self.old.reader.records))) }
        ensures choice { chosen.new.choice ≡ chosen.old.choice }
        ensures reader { OnOk result (self.new.reader ≡ record self.old.reader { memory = []; records = [] }) }
        ensures offset { OnOk result (self.new.offset ≡ self.old.offset + len_of (given_by self.old.reader)) }
        ensures count { OnOk result (self.new.records ≡ self.old.records + length self.old.reader.records) }
    {
        self.offset = chosen.add_memory(&mut self.reader, self.offset)?;
        self.offset = chosen.add_records(&mut self.reader, header, self.offset, &mut self.records)?;
        Ok(())
    }

    /// Takes a piece and adds the lines of what is chosen of it, and tells whether a fault stands in what
    /// came so far. `NoMemory` says that a growth was refused.
    pub fn choose(&mut self, chosen: &mut Chosen, piece: &[u8]) -> Result<bool, NoMemory>
        requires { (bytes : List ℕ) × IsShown bytes self.old × (length bytes + length piece.now < 2 ^ 63) }
        ensures shown { (bytes : List ℕ) → IsShown bytes self.old →
            OnOk result (IsShown (bytes ++ piece.now) self.new) }
        ensures lines { (bytes out : List ℕ) → IsShown bytes self.old → HasChosen chosen.old out bytes →
            OnOk result (HasChosen chosen.new out (bytes ++ piece.now)) }
        ensures choice { chosen.new.choice ≡ chosen.old.choice }
        ensures enough { (bytes : List ℕ) → IsShown bytes self.old →
            IfOk result (λ enough. IsTrue enough ↔ HasFault (bytes ++ piece.now)) }
    {
        let enough = feed(&mut self.reader, piece)?;
        let Some(header) = self.reader.header() else {
            return Ok(enough);
        };
        self.add_header(chosen, &header)?;
        self.add_records(chosen, &header)?;
        Ok(enough)
    }

    /// Puts the line of the end record.
    fn put_end(&mut self) -> Result<(), AllocError>
        ensures line { OnOk result
            (string_bytes self.new.text ≡ string_bytes self.old.text ++ end_line self.old.records self.old.offset) }
        ensures rest { self.new ≡ record self.old { text = self.new.text } }
    {
        let line = TextLine::End {
            count: self.records,
        };
        put_line(&mut self.text, line, self.offset)
    }

    /// Puts the line of the end record, where a fault of this cause comes behind one.
    fn put_end_before(&mut self, cause: CodecCause) -> Result<(), AllocError>
        ensures line { OnOk result (string_bytes self.new.text ≡
            string_bytes self.old.text ++ end_before cause self.old.records self.old.offset) }
        ensures rest { self.new ≡ record self.old { text = self.new.text } }
    {
        match cause {
            CodecCause::Trailing => self.put_end(),
            _ => Ok(()),
        }
    }

    /// Puts what stands behind the lines of bytes with this fault.
    fn put_fault(&mut self, fault: CodecFault) -> Result<(), AllocError>
        ensures { OnOk result (string_bytes self.new.text ≡
            string_bytes self.old.text ++ closing (Some fault) self.old.records self.old.offset) }
    {
        self.put_end_before(fault.cause)?;
        write!(self.text, "refused format {fault}\n")
    }

    /// Makes what stands behind the lines, for a trace that ends here: the end record, and its fault, which
    /// it tells.
    pub fn close(&mut self) -> Result<Option<CodecFault>, NoMemory>
        ensures fault { (bytes : List ℕ) → IsShown bytes self.old → IfOk result (λ fault. fault ≡ trace_fault bytes) }
        ensures text { (bytes : List ℕ) → IsShown bytes self.old →
            OnOk result (string_bytes self.new.text ≡ closing_of bytes) }
    {
        self.text.clear();
        match self.reader.finish() {
            Ok(_) => {
                self.put_end()?;
                Ok(None)
            }
            Err(told) => {
                let fault = told.fault();
                self.put_fault(fault)?;
                Ok(Some(fault))
            }
        }
    }
}
