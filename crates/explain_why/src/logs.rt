//! The logs of a trace.

ghost use Rattle.std.specs.Prelude.{IfOk};
ghost use Rattle.lf_rules.specs.InRange.{IsShape};
ghost use Rattle.explain_why.specs.Logs.{IsCountable, AreListsIn};

use crate::packing::packed_in;
use lf_codec::one_trace;
use lf_logs::PackedLogs;
use lf_rules::{NoMemory, Shape};
use std::alloc::Global;

/// The logs of the trace in these bytes, whose banks' numbers are whole: those of the ports, then those of the banks.
/// Their records are in the form of their bytes, which take about as much room as `bytes`.
pub fn packed_logs_in(alloc: Global, shape: &Shape, bytes: &[u8]) -> Result<PackedLogs, NoMemory>
    requires in_range { IsShape shape.now }
    requires countable { IsCountable shape.now bytes.now }
    ensures { IfOk result (AreListsIn shape.now bytes.now) }
{
    one_trace();
    let packing = packed_in(alloc, bytes)?;
    PackedLogs::split(alloc, shape.ports, shape.banks, packing.records)
}
