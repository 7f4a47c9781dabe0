//! Why a trace is not legal.

ghost use Rattle.std.specs.Prelude.{◌≡◌, IfOk};
ghost use Rattle.std.specs.List.{AllByRecursion};
ghost use Rattle.lf_rules.specs.Fits.{Fits};
ghost use Rattle.lf_rules.specs.InRange.{IsShape};
ghost use Rattle.explain_lines.specs.Marks.{told_by};
ghost use Rattle.lf_verdict.specs.Final.{IsToldFirst};
ghost use Rattle.lf_verdict.specs.Outcome.{IsNo};
ghost use Rattle.explain_why.specs.Cause.{HasBankOf};
ghost use Rattle.explain_why.specs.NotLegal.{as_fault, names_place, HasBankOfFirst, IsFirstCause};
ghost use Rattle.explain_why.specs.NotLegal.{told_fault, upon_of, IsSomeTraceFor, IsNotLegal};

use crate::cause::{Cause, Contents, cause_of};
use crate::why::Asked;
use crate::{Packing, packed_in};
use explain_lines::{Marks, marks_of};
use lf_codec::Packed;
use lf_rules::{NoMemory, Shape};
use lf_verdict::{Broken, Fault, PartFault, Upon};
use std::alloc::Global;

/// Why a trace is not legal.
#[derive(Drop)]
pub struct NotLegal {
    /// The records of the trace. Places are told among these.
    pub records: Packed,
    /// What stands beside each record.
    pub marks: Marks,
    /// Why the fault stands that is told.
    pub fault: Cause,
    /// The record upon which something broke first.
    pub upon: Option<Upon>,
    /// Why what broke first stands, where the fault that is told does not name its place.
    pub first: Option<Cause>,
}

/// A fault of a part, as a verdict names it.
pub(crate) fn as_fault(part: &PartFault) -> Fault
    ensures { result ≡ as_fault part.now }
{
    match *part {
        PartFault::Double { bank, k } => Fault::Double { bank, k },
        PartFault::Port { port, at, rule } => Fault::Port { port, at, rule },
        PartFault::Bank { bank, number, rule } => Fault::Bank { bank, number, rule },
    }
}

/// The record upon which something broke first.
fn upon_of(earliest: &Option<Broken>) -> Option<Upon>
    ensures { result ≡ upon_of earliest.now }
{
    match earliest {
        Some(Broken::Part { upon, .. }) => *upon,
        _ => None,
    }
}

/// Whether the verdict names the place of that fault.
fn names_place(fault: &Fault, part: &PartFault) -> bool
    ensures { result ≡ names_place fault.now part.now }
{
    match (fault, part) {
        (Fault::Double { bank, k }, PartFault::Double { bank: b, k: n }) => bank == b && k == n,
        (Fault::Port { port, at, .. }, PartFault::Port { port: p, at: n, .. }) => {
            port == p && at == n
        }
        (
            Fault::Bank { bank, number, .. },
            PartFault::Bank {
                bank: b,
                number: n,
                ..
            },
        ) => { bank == b && number == n }
        _ => false,
    }
}

/// Why what broke first stands, where the fault does not name its place.
fn first_cause(
    alloc: Global,
    shape: &Shape,
    contents: &Contents<'_>,
    fault: &Fault,
    earliest: &Option<Broken>,
    most: u16,
) -> Result<Option<Cause>, NoMemory>
    requires in_range { IsShape shape.now }
    requires bank { HasBankOfFirst shape.now earliest.now }
    requires fit { AllByRecursion (Fits shape.now) contents.now.records.now.records }
    ensures { IfOk result (IsFirstCause shape.now contents.now.memory.now.items contents.now.records.now.records most
        fault.now earliest.now) }
{
    match earliest {
        Some(Broken::Part { fault: part, .. }) if !names_place(fault, part) => {
            Ok(Some(cause_of(alloc, shape, contents, &as_fault(part), most)?))
        }
        _ => Ok(None),
    }
}

/// Why the trace in these bytes is not legal, by this fault.
fn by_fault(
    alloc: Global,
    shape: &Shape,
    bytes: &[u8],
    fault: &Fault,
    earliest: &Option<Broken>,
    asked: &Asked<'_>,
) -> Result<NotLegal, NoMemory>
    requires in_range { IsShape shape.now }
    requires trace { IsSomeTraceFor shape.now bytes.now }
    requires bank { HasBankOf shape.now fault.now }
    requires earliest { IsToldFirst shape.now bytes.now earliest.now }
    ensures { IfOk result (IsNotLegal shape.now bytes.now (told_by asked.now.times) asked.now.most fault.now
        earliest.now) }
{
    let Asked { most, times, .. } = *asked;
    let Packing {
        memory,
        records,
        start,
    } = packed_in(alloc, bytes)?;
    let contents = Contents {
        memory: &memory,
        records: &records,
    };
    let first = first_cause(alloc, shape, &contents, fault, earliest, most)?;
    let fault = cause_of(alloc, shape, &contents, fault, most)?;
    let marks = marks_of(alloc, &records, start, times)?;
    Ok(NotLegal {
        records,
        marks,
        fault,
        upon: upon_of(earliest),
        first,
    })
}

/// Why the trace in these bytes is not legal: by the fault of the verdict, or where it is asked for by what broke
/// first.
pub(crate) fn not_legal(
    alloc: Global,
    shape: &Shape,
    bytes: &[u8],
    fault: &Fault,
    earliest: &Option<Broken>,
    asked: &Asked<'_>,
) -> Result<NotLegal, NoMemory>
    requires in_range { IsShape shape.now }
    requires no { IsNo shape.now bytes.now fault.now }
    requires earliest { IsToldFirst shape.now bytes.now earliest.now }
    ensures { IfOk result (IsNotLegal shape.now bytes.now (told_by asked.now.times) asked.now.most
        (told_fault asked.now.first fault.now earliest.now) earliest.now) }
{
    match earliest {
        Some(Broken::Part { fault: part, .. }) if asked.first => {
            by_fault(alloc, shape, bytes, &as_fault(part), earliest, asked)
        }
        _ => by_fault(alloc, shape, bytes, fault, earliest, asked),
    }
}
