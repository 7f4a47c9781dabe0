//! What broke in the bytes before a fault of the format.

ghost use Rattle.std.specs.Prelude.{Some, IfOk};
ghost use Rattle.lf_rules.specs.InRange.{IsShape};
ghost use Rattle.lf_verdict.specs.Final.{IsFirstOf, IsToldFirst};
ghost use Rattle.explain_lines.specs.Marks.{told_by};
ghost use Rattle.explain_why.specs.BrokenBefore.{IsBrokenBy, HasBrokenBefore, broken_before_text};

use crate::cause::{Cause, Contents, cause_of};
use crate::not_legal::as_fault;
use crate::packing::{Packing, packed_so_far};
use crate::why::Asked;
use explain_lines::{Marks, marks_of};
use lf_codec::Packed;
use lf_rules::{NoMemory, Shape};
use lf_verdict::{Broken, PartFault, Upon};
use std::alloc::Global;

/// What broke first in the records before a fault of the format.
#[derive(Drop)]
pub struct BrokenBefore {
    /// The records before the fault. Places are told among these.
    pub records: Packed,
    /// What stands beside each record.
    pub marks: Marks,
    /// Why the fault stands.
    pub cause: Cause,
    /// The record upon which it broke.
    pub upon: Upon,
}

/// Why the fault broke that is the first in these bytes.
fn broken_by(
    alloc: Global,
    shape: &Shape,
    bytes: &[u8],
    fault: &PartFault,
    upon: Upon,
    asked: &Asked<'_>,
) -> Result<BrokenBefore, NoMemory>
    requires in_range { IsShape shape.now }
    requires first { IsFirstOf shape.now bytes.now fault.now upon }
    ensures { IfOk result (IsBrokenBy shape.now bytes.now (told_by asked.now.times) asked.now.most fault.now upon) }
{
    let Asked { most, times, .. } = *asked;
    let Packing {
        memory,
        records,
        start,
    } = packed_so_far(alloc, bytes)?;
    let contents = Contents {
        memory: &memory,
        records: &records,
    };
    let cause = cause_of(alloc, shape, &contents, &as_fault(fault), most)?;
    let marks = marks_of(alloc, &records, start, times)?;
    Ok(BrokenBefore {
        records,
        marks,
        cause,
        upon,
    })
}

/// Why that broke first in these bytes, where something did and they are not of another hierarchy.
pub(crate) fn broken_before(
    alloc: Global,
    shape: &Shape,
    bytes: &[u8],
    earliest: &Option<Broken>,
    asked: &Asked<'_>,
) -> Result<Option<BrokenBefore>, NoMemory>
    requires in_range { IsShape shape.now }
    requires earliest { IsToldFirst shape.now bytes.now earliest.now }
    ensures { IfOk result (HasBrokenBefore shape.now bytes.now (told_by asked.now.times) asked.now.most) }
{
    match earliest {
        Some(Broken::Part { fault, upon }) => {
            let Some(upon) = *upon else { unreachable!() };
            Ok(Some(broken_by(alloc, shape, bytes, fault, upon, asked)?))
        }
        Some(Broken::Header(_)) => Ok(None),
        None => Ok(None),
    }
}
