//! The text of why a verdict is what it is.

ghost use Rattle.std.specs.Prelude.{Some};
ghost use Rattle.explain_lines.specs.Marks.{besides};
ghost use Rattle.lf_verdict.specs.Text.{upon_text};
ghost use Rattle.explain_why.specs.BrokenBefore.{broken_before_text};
ghost use Rattle.explain_why.specs.NotLegal.{first_heading, first_text, not_legal_text};
ghost use Rattle.explain_why.specs.Why.{why_text};

use crate::broken_before::BrokenBefore;
use crate::cause::{Cause, CauseText};
use crate::not_legal::NotLegal;
use crate::why::Why;
use count_usage::UsageText;
use explain_lines::Listing;
use explain_refusal::{FormatRefusal, HeaderRefusal, header_at};
use lf_rules::Shape;
use lf_verdict::Upon;
use std::fmt;

/// The record upon which something broke.
#[derive(Clone, Copy)]
struct UponText(Option<Upon>);

impl fmt::Display for UponText {
    ghost output = { λ upon. Some (upon_text upon.0) };

    fn fmt<W: fmt::Write>(&self, f: &mut fmt::Formatter<W>) -> fmt::Result {
        match self.0 {
            Some(Upon { log, at, offset }) => {
                write!(f, " upon log={log} event={at} at={offset}")
            }
            None => Ok(()),
        }
    }
}

/// The heading of what broke first.
#[derive(Clone, Copy)]
struct FirstHeading(Option<Upon>);

impl fmt::Display for FirstHeading {
    ghost output = { λ heading. Some (first_heading heading.0) };

    fn fmt<W: fmt::Write>(&self, f: &mut fmt::Formatter<W>) -> fmt::Result {
        let upon = UponText(self.0);
        write!(f, "\nwhat broke first in the trace{upon}:\n")
    }
}

/// What broke first, behind a heading of its own, where it is told.
#[derive(Clone, Copy)]
struct First<'a> {
    listing: Listing<'a>,
    upon: Option<Upon>,
    cause: &'a Option<Cause>,
}

impl fmt::Display for First<'_> {
    ghost output = { λ first. Some
        (first_text first.listing.records.now.records (besides first.listing.marks.now) first.upon first.cause.now) };

    fn fmt<W: fmt::Write>(&self, f: &mut fmt::Formatter<W>) -> fmt::Result {
        let Some(cause) = self.cause else {
            return Ok(());
        };
        let why = CauseText {
            listing: self.listing,
            cause,
        };
        let heading = FirstHeading(self.upon);
        write!(f, "{heading}{why}")
    }
}

impl fmt::Display for NotLegal {
    ghost output = { λ why. Some (not_legal_text why) };

    fn fmt<W: fmt::Write>(&self, f: &mut fmt::Formatter<W>) -> fmt::Result {
        let listing = Listing {
            records: &self.records,
            marks: &self.marks,
        };
        let why = CauseText {
            listing,
            cause: &self.fault,
        };
        let first = First {
            listing,
            upon: self.upon,
            cause: &self.first,
        };
        write!(f, "{why}{first}")
    }
}

/// What broke first before a fault of the format, where something did.
#[derive(Clone, Copy)]
struct Broken<'a>(&'a Option<BrokenBefore>);

impl fmt::Display for Broken<'_> {
    ghost output = { λ broken. Some (broken_before_text broken.0.now) };

    fn fmt<W: fmt::Write>(&self, f: &mut fmt::Formatter<W>) -> fmt::Result {
        let Some(why) = self.0 else {
            return Ok(());
        };
        let heading = FirstHeading(Some(why.upon));
        let listing = Listing {
            records: &why.records,
            marks: &why.marks,
        };
        let cause = CauseText {
            listing,
            cause: &why.cause,
        };
        write!(f, "{heading}{cause}")
    }
}

/// Why the verdict on these bytes is what it is. Its text is lines, each with its newline.
#[derive(Clone, Copy)]
pub struct WhyText<'a> {
    pub shape: &'a Shape,
    pub bytes: &'a [u8],
    pub why: &'a Why,
}

impl fmt::Display for WhyText<'_> {
    ghost output = { λ it. Some (why_text it.shape.now it.bytes.now it.why.now) };

    fn fmt<W: fmt::Write>(&self, f: &mut fmt::Formatter<W>) -> fmt::Result {
        let WhyText { shape, bytes, why } = *self;
        match why {
            Why::No(why) => write!(f, "{why}"),
            Why::NotComplete(why) => write!(f, "{why}"),
            Why::Yes(usage) => {
                let text = UsageText { usage, shape };
                write!(f, "{text}")
            }
            Why::Format {
                fault,
                count,
                broken,
            } => {
                let refusal = FormatRefusal {
                    bytes,
                    fault: *fault,
                    count: *count,
                };
                let first = Broken(broken);
                write!(f, "{refusal}{first}")
            }
            Why::Header => {
                let refusal = HeaderRefusal {
                    header: header_at(bytes),
                    shape: *shape,
                };
                write!(f, "{refusal}")
            }
        }
    }
}
