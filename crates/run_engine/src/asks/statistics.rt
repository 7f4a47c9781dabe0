//! The statistics of a legal trace.

ghost use Rattle.std.specs.Prelude.{◌≡◌, IfOk, string_bytes};
ghost use Rattle.lf_stats.specs.Text.{stats_text};

use crate::ask::{Ask, Needs};
use crate::line::{no_memory_line, not_read_line, outcome_line};
use lf_rules::{NoMemory, Shape};
use lf_stats::Stats;
use lf_verdict::{Asked, Conclusion};
use std::alloc::Global;

/// The statistics of a legal trace, and where it is `ordered` its least order: a line for each bank and one for each
/// port is written. Otherwise the line of the verdict is.
#[derive(Clone, Copy)]
pub struct Statistics {
    pub ordered: bool,
}

/// The lines of the statistics.
fn statistics_lines(alloc: Global, stats: &Stats) -> Result<String, NoMemory>
    ensures { IfOk result (λ text. string_bytes text ≡ stats_text stats.now) }
{
    Ok(format!(in alloc; "{stats}")?)
}

impl Ask for Statistics {
    ghost use Rattle.run_engine.specs.Asks.{AreStatisticsLines, IsReport};
    ghost use Rattle.run_engine.specs.Line.{not_read_line};
    ghost use Rattle.run_engine.specs.Needs.{statistics_needs};

    ghost needs_of = { λ ask. statistics_needs ask.ordered };

    ghost is_due = { λ _ shape conclusion text. IsReport AreStatisticsLines shape conclusion text };

    ghost lost = { not_read_line };

    fn needs(&self) -> Needs {
        Needs {
            asked: Asked {
                ordered: self.ordered,
                watched: false,
                counted: true,
            },
            early: false,
            bytes: false,
        }
    }

    fn text(
        &self,
        alloc: Global,
        _shape: &Shape,
        _bytes: &[u8],
        conclusion: &Conclusion,
    ) -> Result<String, NoMemory> {
        match &conclusion.statistics {
            Some(stats) => statistics_lines(alloc, stats),
            None => outcome_line(alloc, &conclusion.outcome),
        }
    }

    fn refused(&self, alloc: Global, conclusion: &Conclusion) -> Result<String, NoMemory> {
        outcome_line(alloc, &conclusion.outcome)
    }

    fn no_memory(&self) -> &'static [u8] {
        no_memory_line()
    }

    fn not_read(&self) -> &'static [u8] {
        not_read_line()
    }
}
