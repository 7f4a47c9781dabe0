//! The line that an explanation begins with.

ghost use Rattle.std.specs.Prelude.{◌≡◌, Some};
ghost use Rattle.run_report.specs.Explain.{answer_text, first_text, headline_text};
ghost use Rattle.run_report.specs.Headline.{line_text};

use explain_why::Judgement;
use lf_verdict::{Broken, Incomplete, Outcome};
use run_engine::Line;
use std::fmt;

/// The line that an explanation begins with.
#[derive(Clone, Copy)]
pub enum Headline<'a> {
    /// That of the verdict, or of a request without a reply.
    Verdict(Line<'a>),
    /// That of what broke first.
    First(&'a Broken),
}

impl fmt::Display for Headline<'_> {
    ghost output = { λ line. Some (line_text line) };

    fn fmt<W: fmt::Write>(&self, f: &mut fmt::Formatter<W>) -> fmt::Result {
        match self {
            Headline::Verdict(line) => write!(f, "{line}"),
            Headline::First(found) => write!(f, "broken {found}"),
        }
    }
}

/// The line of a request without a reply, or otherwise that of the verdict.
fn verdict_line(outcome: &Outcome, found: Option<Incomplete>) -> Headline<'_>
    ensures { line_text result ≡ answer_text outcome.now found }
{
    match found {
        Some(request) => Headline::Verdict(Line::Incomplete(request)),
        None => Headline::Verdict(Line::Concluded(outcome)),
    }
}

/// The line of what broke first, or this one where it was no record.
fn first_or<'a>(earliest: &'a Option<Broken>, other: Headline<'a>) -> Headline<'a>
    ensures { line_text result ≡ first_text earliest.now (line_text other.entry) }
{
    match earliest {
        Some(found) => match found {
            Broken::Part { .. } => Headline::First(found),
            Broken::Header(_) => other,
        },
        None => other,
    }
}

/// The line of a judgement: of a no where that is asked for the line of what broke first, otherwise that of a request
/// without a reply, or that of the verdict.
pub fn headline_of<'a>(first: bool, judged: &Judgement<'a>) -> Headline<'a>
    ensures { line_text result
        ≡ headline_text first judged.now.outcome.now judged.now.earliest.now judged.now.incomplete }
{
    let line = verdict_line(judged.outcome, judged.incomplete);
    if !first {
        return line;
    }
    match judged.outcome {
        Outcome::No(_) => first_or(judged.earliest, line),
        Outcome::Yes { .. } => line,
        Outcome::Refused(_) => line,
    }
}
