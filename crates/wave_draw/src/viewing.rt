//! Reads a trace and writes its wave.

ghost use Rattle.std.specs.Prelude.{◌≡◌, ◌≤◌, ◌<◌, ◌+◌, ◌^◌, ◌↔◌, ◌++◌, ℕ, List, [], length};
ghost use Rattle.std.specs.Prelude.{IfErr, OnOk, IsErrOf};
ghost use Rattle.run_stream.specs.Account.{WentOut};
ghost use Rattle.run_stream.specs.Counted.{calls_of, failures_of, account_of};
ghost use Rattle.run_stream.specs.Gathered.{IsAllRead, EndsOnce};
ghost use Rattle.text_dump.specs.Dump.{HasFault, piece_len};
ghost use Rattle.wave_draw.specs.declared.drawing.Drawing.{Drawing};
ghost use Rattle.wave_draw.specs.declared.fault.ViewFault.{ViewFault};
ghost use Rattle.wave_draw.specs.Viewing.{IsDrawn, Shows, IsStopped, IsViewed, wave_of, drawing_of};

use crate::drawer::Drawer;
use crate::drawing::Drawing;
use crate::fault::ViewFault;
use lf_codec::{CodecFault, fault_so_far};
use run_stream::{Counted, Source, put, zeros};
use std::io::{ErrorKind, Read, Write};

/// The most bytes that one read asks for.
pub(crate) const PIECE: usize = 65536;

/// Writes the wave of a piece, and tells whether a fault stands in what came so far.
fn show<W: Write>(
    drawer: &mut Drawer,
    writer: &mut Counted<W>,
    piece: &[u8],
) -> Result<bool, ViewFault>
    requires ready { (drawing : Drawing) × (bytes : List ℕ) × IsDrawn drawing bytes drawer.old ×
        (length bytes + length piece.now < 2 ^ 63) }
    requires writes { failures_of writer.old ≡ 0 }
    ensures write { IsErrOf result ViewFault.Write ↔ (0 < failures_of writer.new) }
    ensures shown { (drawing : Drawing) (bytes : List ℕ) → IsDrawn drawing bytes drawer.old →
        Shows drawing (account_of W.contents writer.old) (account_of W.contents writer.new) drawer.new bytes piece.now
        result }
{
    let enough = drawer.show(piece)?;
    put(writer, drawer.text().as_bytes())?;
    Ok(enough)
}

/// Reads pieces, each at most as long as the buffer, and writes their wave, until a read gives no bytes or
/// a fault stands in what was read. Each read is a turn, also one that is interrupted, which is tried again.
fn view_pieces<S: Source, W: Write>(
    source: &mut S,
    buffer: &mut [u8],
    drawer: &mut Drawer,
    writer: &mut Counted<W>,
    turns: u32,
) -> Result<(), ViewFault>
    requires calls { (S.account source.old).calls ≡ 0 }
    requires failures { (S.account source.old).failures ≡ 0 }
    requires room { length buffer.old ≡ piece_len }
    requires fresh { IsDrawn (drawing_of drawer.old) [] drawer.old }
    requires writes { failures_of writer.old ≡ 0 }
    ensures reads { (S.account source.new).calls ≤ turns }
    // A read that answers no bytes is the last one.
    ensures once { EndsOnce (S.account source.old).pieces (S.account source.new).pieces }
    ensures all { OnOk result ((bytes : List ℕ) × IsDrawn (drawing_of drawer.old) bytes drawer.new
        × IsAllRead HasFault piece_len (S.account source.old) (S.account source.new) bytes
        × WentOut (account_of W.contents writer.old) (account_of W.contents writer.new)
        (wave_of (drawing_of drawer.old) bytes)) }
    ensures stopped { IfErr result (IsStopped (drawing_of drawer.old) (S.account source.old) (S.account source.new)
        (account_of W.contents writer.old) (account_of W.contents writer.new)) }
    ensures read { IsErrOf result ViewFault.Read ↔ (0 < (S.account source.new).failures) }
    ensures turns { IsErrOf result ViewFault.Turns → (S.account source.new).calls ≡ turns }
    ensures write { IsErrOf result ViewFault.Write ↔ (0 < failures_of writer.new) }
{
    fault_so_far();
    for _turn in 0..turns {
        match source.pull(buffer) {
            Ok(0) => return Ok(()),
            Ok(n) => match show(drawer, writer, &buffer[..n]) {
                Ok(false) => {}
                Ok(true) => return Ok(()),
                Err(fault) => return Err(fault),
            },
            Err(e) => {
                if e.kind() != ErrorKind::Interrupted {
                    return Err(ViewFault::Read);
                }
            }
        }
    }
    Err(ViewFault::Turns)
}

/// Reads the trace until the reader is at its end or a fault stands in what it gave, and writes its wave:
/// the head once its header is there, and what is shown of each record as soon as the bytes of a read
/// complete it and, with an order, its turn has come. The fault that the bytes have, where they are no trace,
/// is the answer. Each read is a turn, and there are at most so many turns.
///
/// `ViewFault::Read` says that a read failed, `ViewFault::Turns` that the turns were used up before the
/// trace was read, `ViewFault::Memory` that a growth was refused: then the wave is that of the bytes that were read but
/// for those of at most one read. `ViewFault::Write` says that a write failed, and `ViewFault::Order` that the bytes
/// are a trace and the order does not name its records.
pub fn view<T: AllocGlobal, R: Read, W: Write>(
    rt: &T,
    reader: &mut Counted<R>,
    writer: &mut Counted<W>,
    drawing: Drawing,
    turns: u32,
) -> Result<Option<CodecFault>, ViewFault>
    requires calls { calls_of reader.old ≡ 0 }
    requires failures { failures_of reader.old ≡ 0 }
    requires writes { failures_of writer.old ≡ 0 }
    ensures { IsViewed drawing (account_of R.remaining reader.old) (account_of R.remaining reader.new)
        (account_of W.contents writer.old) (account_of W.contents writer.new) turns result }
{
    let Ok(mut buffer) = zeros(rt.alloc(), PIECE) else {
        return Err(ViewFault::Memory);
    };
    let mut drawer = Drawer::new(rt.alloc(), drawing);
    match view_pieces(reader, buffer.as_mut_slice(), &mut drawer, writer, turns) {
        Ok(()) => drawer.close(),
        Err(fault) => Err(fault),
    }
}
