//! A trace that is being written, line by line.

ghost use Rattle.std.specs.Prelude.{◌≡◌, ◌++◌, ℕ, List, [], None, IfOk};
ghost use Rattle.lf_codec.specs.Laws.{IsSomeTrace};
ghost use Rattle.lf_codec.specs.Reading.{trace_fault};
ghost use Rattle.text_parse.specs.Defaults.{starting};
ghost use Rattle.text_assemble.specs.Assembly.{ended, Assembles};
ghost use Rattle.text_assemble.specs.declared.due.Due.TheVariants as due;
ghost use Rattle.text_assemble.specs.Draft.{IsFine, IsDraft, Judges, Adds, Closes, whole};

use crate::due::Due;
use crate::fault::{AssembleCause, AssembleFault};
use crate::spelling::{put_end, put_line};
use lf_codec::{CodecCause, Reader, fault_so_far};
use std::alloc::Global;
use text_parse::{Defaults, read_line};

/// The bytes of the lines so far.
#[derive(Drop)]
pub(crate) struct Draft {
    /// What the next line has to say.
    due: Due,
    /// What stands for fields that are left out.
    defaults: Defaults,
    bytes: Vec<u8>,
    /// It was fed the bytes, and judges them.
    reader: Reader,
}

/// Hands the reader the bytes of one more line. What it reads of them is let go.
fn judge(reader: &mut Reader, piece: &[u8]) -> Result<(), AssembleCause>
    ensures { (bytes : List ℕ) → IsFine bytes reader.old → Judges reader.new (bytes ++ piece.now) result }
{
    fault_so_far();
    match reader.feed(piece) {
        Ok(()) => {
            let _ = reader.take_memory();
            let _ = reader.take();
            Ok(())
        }
        Err(told) => match told.fault().cause {
            CodecCause::NoMemory => Err(AssembleCause::Memory),
            cause => Err(AssembleCause::Format(cause)),
        },
    }
}

impl Draft {
    /// A draft of no lines, of this version where the header leaves it out. It takes no memory.
    pub(crate) fn new(alloc: Global, version: u16) -> Draft
        ensures draft { IsDraft result }
        ensures due { result.due ≡ due.Lfts }
        ensures defaults { result.defaults ≡ starting version }
        ensures bytes { result.bytes.items ≡ [] }
    {
        Draft {
            due: Due::Lfts,
            defaults: Defaults::new(version),
            bytes: Vec::new(alloc),
            reader: Reader::new(alloc),
        }
    }

    /// Reads one more line, and puts its bytes behind those of the lines before.
    #[tactic(auto, unfolding(crate::specs::Assembly::added))]
    pub(crate) fn add(&mut self, text: &[u8]) -> Result<(), AssembleCause>
        requires { IsDraft self.old }
        ensures { Adds self.old self.new text.now result }
    {
        let line = match read_line(self.due.ports(), &self.defaults, text) {
            Ok(line) => line,
            Err(fault) => return Err(AssembleCause::Text(fault)),
        };
        let due = self.due.after(&line)?;
        let start = self.bytes.len();
        put_line(&mut self.bytes, &line)?;
        judge(&mut self.reader, &self.bytes[start..])?;
        self.due = due;
        self.defaults.pass(&line);
        Ok(())
    }

    /// Puts the end record behind event records, where no line said it.
    fn close(&mut self) -> Result<(), AssembleCause>
        requires { IsDraft self.old }
        ensures { Closes self.old self.new result }
    {
        let Due::Event { count, .. } = self.due else {
            return Ok(());
        };
        let start = self.bytes.len();
        put_end(&mut self.bytes, count)?;
        judge(&mut self.reader, &self.bytes[start..])?;
        Ok(())
    }

    /// The bytes with their end record, if they are a whole trace, where so many lines were read.
    pub(crate) fn end(mut self, line: u64) -> Result<Vec<u8>, AssembleFault>
        requires { IsDraft self }
        ensures assembles { Assembles result (whole line self) }
        ensures trace { IfOk result (λ v. IsSomeTrace v.items) }
    {
        match self.close() {
            Ok(()) => self.finish(line),
            Err(cause) => Err(AssembleFault { line, cause }),
        }
    }

    /// The bytes, if they are a whole trace.
    fn finish(self, line: u64) -> Result<Vec<u8>, AssembleFault>
        requires { IsDraft self }
        ensures assembles { Assembles result (ended line self.bytes.items (trace_fault self.bytes.items)) }
        ensures trace { IfOk result (λ v. IsSomeTrace v.items) }
    {
        let Draft {
            bytes,
            mut reader,
            ..
        } = self;
        match reader.finish() {
            Ok(_) => Ok(bytes),
            Err(told) => {
                let cause = AssembleCause::Format(told.fault().cause);
                Err(AssembleFault { line, cause })
            }
        }
    }
}
