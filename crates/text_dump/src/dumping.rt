//! Reads a trace and writes its text.

ghost use Rattle.std.specs.Prelude.{◌≡◌, ◌≤◌, ◌<◌, ◌+◌, ◌^◌, ◌↔◌, ◌++◌, ℕ, List, [], ◌∷◌, length, string_bytes};
ghost use Rattle.std.specs.Prelude.{IfOk, IfErr, OnOk, IsErrOf};
ghost use Rattle.run_stream.specs.Account.{WentOut};
ghost use Rattle.run_stream.specs.Counted.{calls_of, failures_of, account_of};
ghost use Rattle.run_stream.specs.Gathered.{IsAllRead, GoesOnToLast};
ghost use Rattle.text_dump.specs.declared.fault.DumpFault.{DumpFault};
ghost use Rattle.text_dump.specs.Lines.{lines_of};
ghost use Rattle.text_dump.specs.Dump.{HasFault, IsShown, Shows, IsStopped, stop_line, piece_len, IsDumped};
ghost use Rattle.text_dump.specs.Dump.{IsToldButForOne, no_memory_line};

use crate::fault::DumpFault;
use crate::printer::Printer;
use lf_codec::{CodecFault, fault_so_far};
use run_stream::{Counted, Source, put, zeros};
use std::alloc::Global;
use std::io::{ErrorKind, Read, Write};

/// The most bytes that one read asks for.
pub const PIECE: usize = 65536;

/// Writes the lines of a piece, and tells whether a fault stands in what came so far.
fn show<W: Write>(
    printer: &mut Printer,
    writer: &mut Counted<W>,
    piece: &[u8],
) -> Result<bool, DumpFault>
    requires ready { (bytes : List ℕ) × IsShown bytes printer.old × (length bytes + length piece.now < 2 ^ 63) }
    requires writes { failures_of writer.old ≡ 0 }
    ensures write { IsErrOf result DumpFault.Write ↔ (0 < failures_of writer.new) }
    ensures shown { (bytes : List ℕ) → IsShown bytes printer.old →
        Shows (account_of W.contents writer.old) (account_of W.contents writer.new) printer.new bytes piece.now result }
{
    let enough = printer.show(piece)?;
    put(writer, printer.text().as_bytes())?;
    Ok(enough)
}

/// Reads pieces, each at most as long as the buffer, and writes their lines, until a read gives no bytes or
/// a fault stands in what was read. Each read is a turn, also one that is interrupted, which is tried again.
fn print_lines<S: Source, W: Write>(
    source: &mut S,
    buffer: &mut [u8],
    printer: &mut Printer,
    writer: &mut Counted<W>,
    turns: u32,
) -> Result<(), DumpFault>
    requires calls { (S.account source.old).calls ≡ 0 }
    requires failures { (S.account source.old).failures ≡ 0 }
    requires room { length buffer.old ≡ piece_len }
    requires fresh { IsShown [] printer.old }
    requires writes { failures_of writer.old ≡ 0 }
    ensures reads { (S.account source.new).calls ≤ turns }
    ensures all { OnOk result ((bytes : List ℕ) × IsShown bytes printer.new
        × IsAllRead HasFault piece_len (S.account source.old) (S.account source.new) bytes
        × WentOut (account_of W.contents writer.old) (account_of W.contents writer.new) (lines_of bytes)) }
    ensures stopped { IfErr result (IsStopped lines_of (S.account source.old) (S.account source.new)
        (account_of W.contents writer.old) (account_of W.contents writer.new) []) }
    ensures read { IsErrOf result DumpFault.Read ↔ (0 < (S.account source.new).failures) }
    ensures turns { IsErrOf result DumpFault.Turns → (S.account source.new).calls ≡ turns }
    ensures write { IsErrOf result DumpFault.Write ↔ (0 < failures_of writer.new) }
    ensures once { OnOk result (GoesOnToLast (S.account source.old).pieces (S.account source.new).pieces) }
    ensures memory { IsErrOf result DumpFault.Memory → IsToldButForOne (S.account source.old) (S.account source.new)
        (account_of W.contents writer.old) (account_of W.contents writer.new) [] }
{
    fault_so_far();
    for _turn in 0..turns {
        match source.pull(buffer) {
            Ok(0) => return Ok(()),
            Ok(n) => match show(printer, writer, &buffer[..n]) {
                Ok(false) => {}
                Ok(true) => return Ok(()),
                Err(fault) => return Err(fault),
            },
            Err(e) => {
                if e.kind() != ErrorKind::Interrupted {
                    return Err(DumpFault::Read);
                }
            }
        }
    }
    Err(DumpFault::Turns)
}

/// Writes the text of what the source gives, and tells its fault.
fn print_text<S: Source, W: Write>(
    source: &mut S,
    buffer: &mut [u8],
    printer: &mut Printer,
    writer: &mut Counted<W>,
    turns: u32,
) -> Result<Option<CodecFault>, DumpFault>
    requires calls { (S.account source.old).calls ≡ 0 }
    requires failures { (S.account source.old).failures ≡ 0 }
    requires room { length buffer.old ≡ piece_len }
    requires fresh { IsShown [] printer.old }
    requires writes { failures_of writer.old ≡ 0 }
    ensures dumped { IsDumped (S.account source.old) (S.account source.new)
        (account_of W.contents writer.old) (account_of W.contents writer.new) turns (λ _. []) result }
    ensures memory { IsErrOf result DumpFault.Memory → IsToldButForOne (S.account source.old) (S.account source.new)
        (account_of W.contents writer.old) (account_of W.contents writer.new) [] }
{
    print_lines(source, buffer, printer, writer, turns)?;
    let fault = printer.close()?;
    put(writer, printer.text().as_bytes())?;
    Ok(fault)
}

/// Prints all lines with a buffer and a printer of its own.
fn print<S: Source, W: Write>(
    alloc: Global,
    source: &mut S,
    writer: &mut Counted<W>,
    turns: u32,
) -> Result<Option<CodecFault>, DumpFault>
    requires calls { (S.account source.old).calls ≡ 0 }
    requires failures { (S.account source.old).failures ≡ 0 }
    requires writes { failures_of writer.old ≡ 0 }
    ensures dumped { IsDumped (S.account source.old) (S.account source.new)
        (account_of W.contents writer.old) (account_of W.contents writer.new) turns (λ _. []) result }
    ensures memory { IsErrOf result DumpFault.Memory → IsToldButForOne (S.account source.old) (S.account source.new)
        (account_of W.contents writer.old) (account_of W.contents writer.new) [] }
{
    let Ok(mut buffer) = zeros(alloc, PIECE) else {
        return Err(DumpFault::Memory);
    };
    let mut printer = Printer::new(alloc);
    print_text(source, buffer.as_mut_slice(), &mut printer, writer, turns)
}

/// The line that stands behind a text that stops here.
pub(crate) fn stop_line(fault: DumpFault) -> &'static [u8]
    ensures { result.now ≡ stop_line fault }
{
    match fault {
        DumpFault::Read | DumpFault::Turns => b"refused read trace\n",
        DumpFault::Memory => b"refused memory\n",
        DumpFault::Write => b"",
    }
}

/// Reads the trace until the reader is at its end or a fault stands in what it gave, and writes its text: a
/// line for each record as soon as the bytes of a read complete it, and then the end record or why the bytes
/// are no trace. That fault is the answer. Each read is a turn, and there are at most so many turns.
///
/// `DumpFault::Read` says that a read failed, and `DumpFault::Turns` that the turns were used up before the
/// trace was read: then the last line is `refused read trace`. Where a growth was refused it is `refused
/// memory`, and the lines of at most one read are missing. `DumpFault::Write` says that a write failed.
pub fn dump<T: AllocGlobal, R: Read, W: Write>(
    rt: &T,
    reader: &mut Counted<R>,
    writer: &mut Counted<W>,
    turns: u32,
) -> Result<Option<CodecFault>, DumpFault>
    requires calls { calls_of reader.old ≡ 0 }
    requires failures { failures_of reader.old ≡ 0 }
    requires writes { failures_of writer.old ≡ 0 }
    ensures dumped { IsDumped (account_of R.remaining reader.old) (account_of R.remaining reader.new)
        (account_of W.contents writer.old) (account_of W.contents writer.new) turns stop_line result }
    ensures memory { IsErrOf result DumpFault.Memory →
        IsToldButForOne (account_of R.remaining reader.old) (account_of R.remaining reader.new)
        (account_of W.contents writer.old) (account_of W.contents writer.new) no_memory_line }
{
    let fault = match print(rt.alloc(), reader, writer, turns) {
        Ok(fault) => return Ok(fault),
        Err(DumpFault::Write) => return Err(DumpFault::Write),
        Err(fault) => fault,
    };
    put(writer, stop_line(fault))?;
    Err(fault)
}
