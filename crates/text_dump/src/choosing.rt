//! Reads a trace and writes the lines that are chosen of it.

ghost use Rattle.std.specs.Prelude.{◌≡◌, ◌≢◌, ◌≤◌, ◌<◌, ◌+◌, ◌^◌, ◌↔◌, ◌++◌, ℕ, List, [], length, take};
ghost use Rattle.std.specs.Prelude.{IfErr, OnOk, IsErrOf, Err};
ghost use Rattle.run_stream.specs.Account.{WentOut};
ghost use Rattle.run_stream.specs.Counted.{calls_of, failures_of, account_of};
ghost use Rattle.text_dump.specs.declared.choice.Choice.{Choice};
ghost use Rattle.text_dump.specs.declared.fault.DumpFault.{DumpFault};
ghost use Rattle.text_dump.specs.Chosen.{chosen_lines};
ghost use Rattle.text_dump.specs.Choosing.{HasChosen, IsChosen, IsChosenBut, Chooses, Rests, IsWhollyChosen};
ghost use Rattle.text_dump.specs.Dump.{IsShown, stop_line, no_memory_line, piece_len, IsDumpedBy};

use crate::choice::Choice;
use crate::chosen::Chosen;
use crate::dumping::{PIECE, stop_line};
use crate::fault::DumpFault;
use crate::printer::Printer;
use lf_codec::{CodecFault, fault_so_far};
use run_stream::{Counted, Source, put, zeros};
use std::alloc::Global;
use std::io::{ErrorKind, Read, Write};

/// Chooses of a piece, writes the lines that go out at once, and tells whether a fault stands in what came
/// so far.
fn choose<W: Write>(
    printer: &mut Printer,
    chosen: &mut Chosen,
    writer: &mut Counted<W>,
    piece: &[u8],
) -> Result<bool, DumpFault>
    requires ready { (bytes : List ℕ) × IsShown bytes printer.old × (length bytes + length piece.now < 2 ^ 63) }
    requires writes { failures_of writer.old ≡ 0 }
    ensures write { IsErrOf result DumpFault.Write ↔ (0 < failures_of writer.new) }
    ensures choice { chosen.new.choice ≡ chosen.old.choice }
    ensures chooses { (wanted : Choice) (bytes out : List ℕ) → IsChosen wanted printer.old chosen.old out bytes →
        Chooses (account_of W.contents writer.old) (account_of W.contents writer.new) wanted printer.new
        chosen.new out bytes piece.now result }
{
    let enough = printer.choose(chosen, piece)?;
    chosen.tell_at_once(writer)?;
    Ok(enough)
}

/// Writes what is left of the chosen lines, and gives the fault by which the dump stops: this one, unless the
/// writer fails.
fn stop<W: Write>(chosen: &mut Chosen, writer: &mut Counted<W>, fault: DumpFault) -> DumpFault
    requires writes { failures_of writer.old ≡ 0 }
    requires other { fault ≢ DumpFault.Write }
    ensures { Rests (account_of W.contents writer.old) (account_of W.contents writer.new) chosen.old fault result }
{
    match chosen.tell(writer) {
        Ok(()) => fault,
        Err(refused) => refused.into(),
    }
}

/// Reads pieces, each at most as long as the buffer, and chooses of their lines, until a read gives no bytes
/// or a fault stands in what was read. Each read is a turn, also one that is interrupted, which is tried
/// again.
fn choose_lines<S: Source, W: Write>(
    source: &mut S,
    buffer: &mut [u8],
    printer: &mut Printer,
    chosen: &mut Chosen,
    writer: &mut Counted<W>,
    turns: u32,
) -> Result<(), DumpFault>
    requires calls { (S.account source.old).calls ≡ 0 }
    requires failures { (S.account source.old).failures ≡ 0 }
    requires room { length buffer.old ≡ piece_len }
    requires fresh { IsShown [] printer.old }
    requires empty { HasChosen chosen.old [] [] }
    requires writes { failures_of writer.old ≡ 0 }
    ensures all { OnOk result (IsWhollyChosen (S.account source.old) (S.account source.new)
        (account_of W.contents writer.old) (account_of W.contents writer.new) turns printer.new chosen.new) }
    ensures choice { OnOk result (chosen.new.choice ≡ chosen.old.choice) }
    ensures stopped { IfErr result (λ fault. IsDumpedBy (chosen_lines chosen.old.choice)
        (S.account source.old) (S.account source.new)
        (account_of W.contents writer.old) (account_of W.contents writer.new) turns (λ _. []) (Err fault)) }
    ensures memory { IsErrOf result DumpFault.Memory → IsChosenBut chosen.old.choice.last chosen.old.choice
        (S.account source.old) (S.account source.new)
        (account_of W.contents writer.old) (account_of W.contents writer.new) [] }
{
    fault_so_far();
    for _turn in 0..turns {
        match source.pull(buffer) {
            Ok(0) => return Ok(()),
            Ok(n) => match choose(printer, chosen, writer, &buffer[..n]) {
                Ok(false) => {}
                Ok(true) => return Ok(()),
                Err(fault) => return Err(fault),
            },
            Err(e) => {
                if e.kind() != ErrorKind::Interrupted {
                    return Err(stop(chosen, writer, DumpFault::Read));
                }
            }
        }
    }
    Err(stop(chosen, writer, DumpFault::Turns))
}

/// Writes what is chosen of what the source gives, and tells its fault.
fn choose_text<S: Source, W: Write>(
    source: &mut S,
    buffer: &mut [u8],
    printer: &mut Printer,
    chosen: &mut Chosen,
    writer: &mut Counted<W>,
    turns: u32,
) -> Result<Option<CodecFault>, DumpFault>
    requires calls { (S.account source.old).calls ≡ 0 }
    requires failures { (S.account source.old).failures ≡ 0 }
    requires room { length buffer.old ≡ piece_len }
    requires fresh { IsShown [] printer.old }
    requires empty { HasChosen chosen.old [] [] }
    requires writes { failures_of writer.old ≡ 0 }
    ensures dumped { IsDumpedBy (chosen_lines chosen.old.choice) (S.account source.old) (S.account source.new)
        (account_of W.contents writer.old) (account_of W.contents writer.new) turns (λ _. []) result }
    ensures memory { IsErrOf result DumpFault.Memory → IsChosenBut chosen.old.choice.last chosen.old.choice
        (S.account source.old) (S.account source.new)
        (account_of W.contents writer.old) (account_of W.contents writer.new) [] }
{
    choose_lines(source, buffer, printer, chosen, writer, turns)?;
    chosen.tell(writer)?;
    let fault = printer.close()?;
    put(writer, printer.text().as_bytes())?;
    Ok(fault)
}

/// Prints the chosen lines with a buffer and a printer of its own.
fn choose_all<S: Source, W: Write>(
    alloc: Global,
    source: &mut S,
    writer: &mut Counted<W>,
    turns: u32,
    choice: Choice,
) -> Result<Option<CodecFault>, DumpFault>
    requires calls { (S.account source.old).calls ≡ 0 }
    requires failures { (S.account source.old).failures ≡ 0 }
    requires writes { failures_of writer.old ≡ 0 }
    ensures dumped { IsDumpedBy (chosen_lines choice) (S.account source.old) (S.account source.new)
        (account_of W.contents writer.old) (account_of W.contents writer.new) turns (λ _. []) result }
    ensures memory { IsErrOf result DumpFault.Memory → IsChosenBut choice.last choice
        (S.account source.old) (S.account source.new)
        (account_of W.contents writer.old) (account_of W.contents writer.new) [] }
{
    let Ok(mut buffer) = zeros(alloc, PIECE) else {
        return Err(DumpFault::Memory);
    };
    let mut printer = Printer::new(alloc);
    let mut chosen = Chosen::new(alloc, choice);
    choose_text(
        source,
        buffer.as_mut_slice(),
        &mut printer,
        &mut chosen,
        writer,
        turns,
    )
}

/// Reads the trace as `dump` does, and writes those of its lines that are chosen. The header's line has the
/// word `part` behind its fields, so that the text is not taken for that of a whole trace. Behind the lines
/// stand the end record, with the number of all event records, and why the bytes are no trace, as `dump`
/// writes them. Answers and refusals are those of `dump`.
///
/// Where the last lines are asked for, all lines go out at the end, also where a read failed or the turns
/// were used up. Where a growth was refused before, none of them do. At most so many lines are kept. Where all
/// lines are asked for and a growth was refused, those of at most one read are missing.
pub fn dump_chosen<T: AllocGlobal, R: Read, W: Write>(
    rt: &T,
    reader: &mut Counted<R>,
    writer: &mut Counted<W>,
    turns: u32,
    choice: Choice,
) -> Result<Option<CodecFault>, DumpFault>
    requires calls { calls_of reader.old ≡ 0 }
    requires failures { failures_of reader.old ≡ 0 }
    requires writes { failures_of writer.old ≡ 0 }
    ensures dumped { IsDumpedBy (chosen_lines choice)
        (account_of R.remaining reader.old) (account_of R.remaining reader.new)
        (account_of W.contents writer.old) (account_of W.contents writer.new) turns stop_line result }
    ensures memory { IsErrOf result DumpFault.Memory → IsChosenBut choice.last choice
        (account_of R.remaining reader.old) (account_of R.remaining reader.new)
        (account_of W.contents writer.old) (account_of W.contents writer.new) no_memory_line }
{
    let fault = match choose_all(rt.alloc(), reader, writer, turns, choice) {
        Ok(fault) => return Ok(fault),
        Err(DumpFault::Write) => return Err(DumpFault::Write),
        Err(fault) => fault,
    };
    put(writer, stop_line(fault))?;
    Err(fault)
}
