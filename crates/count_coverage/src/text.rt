//! The lines of a coverage.

ghost use Rattle.std.specs.Prelude.{◌≡◌, Some, length};
ghost use Rattle.count_coverage.specs.Text.{missed, met, lines_of, coverage_text};

use crate::coverage::Coverage;
use crate::tally::Tally;
use std::fmt;

/// A line for each point that was not reached.
#[derive(Clone, Copy)]
struct MissedLines<'a>(&'a [Tally]);

impl fmt::Display for MissedLines<'_> {
    ghost output = { λ lines. Some (lines_of (missed lines.0.now)) };

    fn fmt<W: fmt::Write>(&self, f: &mut fmt::Formatter<W>) -> fmt::Result {
        for tally in self.0 {
            if tally.count == 0 {
                writeln!(f, "{tally}")?;
            }
        }
        Ok(())
    }
}

/// A line for each point that was reached.
#[derive(Clone, Copy)]
struct MetLines<'a>(&'a [Tally]);

impl fmt::Display for MetLines<'_> {
    ghost output = { λ lines. Some (lines_of (met lines.0.now)) };

    fn fmt<W: fmt::Write>(&self, f: &mut fmt::Formatter<W>) -> fmt::Result {
        for tally in self.0 {
            if tally.count != 0 {
                writeln!(f, "{tally}")?;
            }
        }
        Ok(())
    }
}

fn count_met(tallies: &[Tally]) -> usize
    ensures { result ≡ length (met tallies.now) }
{
    tallies.iter().filter(|tally| tally.count != 0).count()
}

/// The points that were not reached, those that were, and how many were.
impl fmt::Display for Coverage {
    ghost output = { λ coverage. Some (coverage_text coverage) };

    fn fmt<W: fmt::Write>(&self, f: &mut fmt::Formatter<W>) -> fmt::Result {
        let tallies = self.tallies.as_slice();
        let missed = MissedLines(tallies);
        let met = MetLines(tallies);
        let covered = count_met(tallies);
        let all = tallies.len();
        writeln!(f, "{missed}{met}covered {covered} of {all}")
    }
}
