//! Makes the order of a no while its trace is read.

ghost use Rattle.std.specs.Prelude.{◌≡◌, ◌++◌, List, [], OnOk};
ghost use Rattle.lf_rules.specs.declared.event.Record.{Record};
ghost use Rattle.run_stream.specs.Counted.{calls_of, failures_of, account_of};
ghost use Rattle.text_dump.specs.Dump.{HasFault};
ghost use Rattle.wave_order.specs.Left.{HasLeft};
ghost use Rattle.wave_draw.specs.Ordering.{IsSplit, IsOrdering};

use crate::fault::ViewFault;
use crate::records::{drop_memory, feed};
use crate::viewing::PIECE;
use explain_lines::Times;
use lf_codec::{Reader, fault_so_far};
use lf_rules::NoMemory;
use run_stream::{Counted, Sink, Stop, gather, zeros};
use std::io::Read;
use wave_order::{Front, Left, Sought, order_to};

/// Takes all event records that the reader has.
fn keep_records(reader: &mut Reader, left: &mut Left) -> Result<(), NoMemory>
    ensures taken { OnOk result (reader.new ≡ record reader.old { records = [] }) }
    ensures kept { (gone records : List Record) → HasLeft left.old gone records →
        OnOk result (HasLeft left.new gone (records ++ reader.old.records)) }
{
    while let Some(item) = reader.take() {
        left.push(&item)?;
    }
    Ok(())
}

/// The records of a trace that comes in pieces.
#[derive(Drop)]
struct Split {
    reader: Reader,
    left: Left,
}

/// A fault that stands in what was fed is enough.
impl Sink for Split {
    type Setting = ();

    type Fault = NoMemory;

    ghost setting = { λ _. tt };

    ghost fed = { λ split bytes. IsSplit split bytes };

    ghost has_enough = { λ _. HasFault };

    fn feed(&mut self, piece: &[u8]) -> Result<bool, NoMemory> {
        let enough = feed(&mut self.reader, piece)?;
        drop_memory(&mut self.reader);
        keep_records(&mut self.reader, &mut self.left)?;
        Ok(enough)
    }
}

/// Reads the trace until the reader is at its end or a fault of the format stands in what it gave, and answers the
/// order of its records that ends with the one that is sought, or where no record may come. With times, it is by them as
/// far as it can be. Each read is a turn, and there are at most so many turns.
///
/// `ViewFault::Read` says that a read failed, `ViewFault::Turns` that the turns were used up before the trace was
/// read, and `ViewFault::Memory` that a growth was refused.
pub fn order_of_no<T: AllocGlobal, R: Read>(
    rt: &T,
    reader: &mut Counted<R>,
    times: &Option<Times>,
    sought: Sought,
    turns: u32,
) -> Result<Front, ViewFault>
    requires calls { calls_of reader.old ≡ 0 }
    requires failures { failures_of reader.old ≡ 0 }
    ensures { IsOrdering times.now sought (account_of R.remaining reader.old) (account_of R.remaining reader.new) turns
        result }
{
    fault_so_far();
    let Ok(mut buffer) = zeros(rt.alloc(), PIECE) else {
        return Err(ViewFault::Memory);
    };
    let mut split = Split {
        reader: Reader::new(rt.alloc()),
        left: Left::new(rt.alloc()),
    };
    match gather(reader, buffer.as_mut_slice(), &mut split, turns) {
        Ok(()) => match order_to(rt.alloc(), split.left, times, sought) {
            Ok(front) => Ok(front),
            Err(NoMemory) => Err(ViewFault::Memory),
        },
        Err(Stop::Read) => Err(ViewFault::Read),
        Err(Stop::Turns) => Err(ViewFault::Turns),
        Err(Stop::Sink(NoMemory)) => Err(ViewFault::Memory),
    }
}
