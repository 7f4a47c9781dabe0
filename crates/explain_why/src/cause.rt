//! Why one fault stands in a trace.

ghost use Rattle.std.specs.Prelude.{Some, IfOk};
ghost use Rattle.std.specs.List.{AllByRecursion};
ghost use Rattle.lf_rules.specs.Fits.{Fits};
ghost use Rattle.lf_rules.specs.InRange.{IsShape};
ghost use Rattle.explain_lines.specs.Marks.{besides};
ghost use Rattle.explain_why.specs.Cause.{HasBankOf, IsCause, cause_text};

use explain_lines::Listing;
use explain_numbers::{Reason, Reasoned};
use explain_rule::{Breach, Explained, Explanation, explain};
use lf_codec::Packed;
use lf_rules::{Memory, NoMemory, Shape};
use lf_verdict::Fault;
use std::alloc::Global;
use std::fmt;

/// Why a fault stands in a trace.
#[derive(Drop, PartialEq, Eq)]
pub enum Cause {
    /// A record breaks a rule.
    Breach(Explanation),
    /// The numbers of the records give no order.
    Numbers(Reason),
}

/// The memory and the records of a trace.
#[derive(Clone, Copy)]
pub(crate) struct Contents<'a> {
    pub memory: &'a Memory,
    pub records: &'a Packed,
}

/// Why the fault stands in the trace, with at most so many records before the one that breaks a rule.
pub(crate) fn cause_of(
    alloc: Global,
    shape: &Shape,
    contents: &Contents<'_>,
    fault: &Fault,
    most: u16,
) -> Result<Cause, NoMemory>
    requires in_range { IsShape shape.now }
    requires bank { HasBankOf shape.now fault.now }
    requires fit { AllByRecursion (Fits shape.now) contents.now.records.now.records }
    ensures { IfOk result (IsCause shape.now contents.now.memory.now.items contents.now.records.now.records most
        fault.now) }
{
    let Contents { memory, records } = *contents;
    let most = most as usize;
    match fault {
        Fault::Port { port, at, rule } => {
            let breach = Breach::Port {
                port: *port,
                at: *at,
                rule: *rule,
            };
            Ok(Cause::Breach(explain(alloc, shape, memory, records, &breach, most)?))
        }
        Fault::Bank { bank, number, rule } => {
            let breach = Breach::Bank {
                bank: *bank,
                number: *number,
                rule: *rule,
            };
            Ok(Cause::Breach(explain(alloc, shape, memory, records, &breach, most)?))
        }
        Fault::Missing { bank, k } => Ok(Cause::Numbers(Reason::missing(
            alloc, records, *bank, *k,
        )?)),
        Fault::Double { bank, k } => Ok(Cause::Numbers(Reason::double(alloc, records, *bank, *k)?)),
        Fault::Cycle(ring) => Ok(Cause::Numbers(Reason::cycle(alloc, records, ring)?)),
    }
}

/// A cause over the records of its trace. Its text is lines, each with its newline.
#[derive(Clone, Copy)]
pub struct CauseText<'a> {
    pub listing: Listing<'a>,
    pub cause: &'a Cause,
}

impl fmt::Display for CauseText<'_> {
    ghost output = { λ it. Some
        (cause_text it.listing.records.now.records (besides it.listing.marks.now) it.cause.now) };

    fn fmt<W: fmt::Write>(&self, f: &mut fmt::Formatter<W>) -> fmt::Result {
        let listing = self.listing;
        match self.cause {
            Cause::Breach(why) => {
                let explained = Explained { listing, why };
                write!(f, "{explained}")
            }
            Cause::Numbers(reason) => {
                let reasoned = Reasoned { listing, reason };
                write!(f, "{reasoned}")
            }
        }
    }
}
