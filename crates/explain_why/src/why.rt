//! Why a verdict is what it is.

ghost use Rattle.std.specs.Prelude.{Some, IfOk, IfSome};
ghost use Rattle.explain_lines.specs.Marks.{told_by};
ghost use Rattle.lf_rules.specs.InRange.{IsShape};
ghost use Rattle.explain_why.specs.Logs.{IsCountable};
ghost use Rattle.lf_verdict.specs.Incomplete.{IsIncompleteIn};
ghost use Rattle.lf_verdict.specs.Final.{IsToldFirst};
ghost use Rattle.explain_why.specs.Why.{IsJudgement, IsUsageOf, IsWhyOfLegal, IsWhyOfFormat, HasWhy};

use crate::broken_before::{BrokenBefore, broken_before};
use crate::not_complete::{NotComplete, not_complete};
use crate::not_legal::{NotLegal, not_legal};
use crate::{packed_logs_in, records_in};
use count_usage::{Usage, usage_of};
use explain_lines::Times;
use lf_codec::CodecFault;
use lf_rules::{NoMemory, Shape};
use lf_verdict::{Broken, Incomplete, Outcome, Refusal};
use std::alloc::Global;

/// Why a verdict is what it is.
#[derive(Drop)]
pub enum Why {
    /// Why a trace is not legal.
    No(NotLegal),
    /// What a legal trace used at most.
    Yes(Usage),
    /// Why a legal trace is not complete.
    NotComplete(NotComplete),
    /// Where bytes are no trace, how many event records stand before, and what broke first in those.
    Format {
        fault: CodecFault,
        count: u64,
        broken: Option<BrokenBefore>,
    },
    /// The trace is of another hierarchy.
    Header,
}

/// What is told of a verdict beside what explains it.
#[derive(Clone, Copy)]
pub struct Asked<'a> {
    /// How many records before one that breaks a rule.
    pub most: u16,
    /// The time of each record, where a recorder wrote it down.
    pub times: Option<&'a Times>,
    /// Whether each request of a legal trace has to have a reply.
    pub complete: bool,
    /// Whether of a no what broke first is told in the place of the verdict's fault.
    pub first: bool,
}

/// What judging the bytes of a trace came to.
#[derive(Clone, Copy)]
pub struct Judgement<'a> {
    pub outcome: &'a Outcome,
    /// What broke first, where something did.
    pub earliest: &'a Option<Broken>,
    /// The first request of a legal trace that has no reply, where one has none and complete traces are asked for.
    pub incomplete: Option<Incomplete>,
}

/// What the trace in these bytes uses at most.
fn usage_in(alloc: Global, shape: &Shape, bytes: &[u8]) -> Result<Usage, NoMemory>
    requires in_range { IsShape shape.now }
    requires countable { IsCountable shape.now bytes.now }
    ensures { IfOk result (IsUsageOf shape.now bytes.now) }
{
    let logs = packed_logs_in(alloc, shape, bytes)?;
    usage_of(alloc, shape, &logs)
}

/// Why a legal trace is not complete, or otherwise what it uses at most.
fn why_of_legal(
    alloc: Global,
    shape: &Shape,
    bytes: &[u8],
    incomplete: Option<Incomplete>,
    asked: &Asked<'_>,
) -> Result<Why, NoMemory>
    requires in_range { IsShape shape.now }
    requires countable { IsCountable shape.now bytes.now }
    requires incomplete { IfSome incomplete (λ found. IsIncompleteIn shape.now bytes.now (Some found)) }
    ensures { IfOk result (IsWhyOfLegal shape.now bytes.now (told_by asked.now.times) asked.now.most incomplete) }
{
    match incomplete {
        Some(found) => Ok(Why::NotComplete(not_complete(alloc, shape, bytes, found, asked)?)),
        None => Ok(Why::Yes(usage_in(alloc, shape, bytes)?)),
    }
}

/// Why the bytes are no trace, by their fault.
fn why_of_format(
    alloc: Global,
    shape: &Shape,
    bytes: &[u8],
    fault: CodecFault,
    earliest: &Option<Broken>,
    asked: &Asked<'_>,
) -> Result<Why, NoMemory>
    requires in_range { IsShape shape.now }
    requires earliest { IsToldFirst shape.now bytes.now earliest.now }
    ensures { IfOk result (IsWhyOfFormat shape.now bytes.now (told_by asked.now.times) asked.now.most fault) }
{
    let records = records_in(alloc, bytes)?;
    Ok(Why::Format {
        fault,
        count: records.len() as u64,
        broken: broken_before(alloc, shape, bytes, earliest, asked)?,
    })
}

/// Why the judgement of these bytes is what it is. A refused configuration, a refused number of workers, and that
/// memory ran out or a thread was refused are not told of.
pub fn why_of(
    alloc: Global,
    shape: &Shape,
    bytes: &[u8],
    judged: &Judgement<'_>,
    asked: &Asked<'_>,
) -> Result<Option<Why>, NoMemory>
    requires in_range { IsShape shape.now }
    requires judged { IsJudgement shape.now bytes.now judged.now.outcome.now judged.now.earliest.now
        judged.now.incomplete }
    ensures { IfOk result (HasWhy shape.now bytes.now (told_by asked.now.times) asked.now.most asked.now.first
        judged.now.outcome.now judged.now.earliest.now judged.now.incomplete) }
{
    let Judgement {
        outcome,
        earliest,
        incomplete,
    } = *judged;
    match outcome {
        Outcome::No(fault) => {
            let why = not_legal(alloc, shape, bytes, fault, earliest, asked)?;
            Ok(Some(Why::No(why)))
        }
        Outcome::Yes { .. } => Ok(Some(why_of_legal(alloc, shape, bytes, incomplete, asked)?)),
        Outcome::Refused(Refusal::Format(fault)) => {
            let why = why_of_format(alloc, shape, bytes, *fault, earliest, asked)?;
            Ok(Some(why))
        }
        Outcome::Refused(Refusal::Header(_)) => Ok(Some(Why::Header)),
        Outcome::Refused(_) => Ok(None),
    }
}
