//! The verdict.

use crate::ask::{Ask, Needs};
use crate::line::{no_memory_line, not_read_line, outcome_line};
use lf_rules::{NoMemory, Shape};
use lf_verdict::Conclusion;
use std::alloc::Global;

/// The verdict, and where it is `ordered` the least order of a legal trace. Its line is written.
#[derive(Clone, Copy)]
pub struct Check {
    pub ordered: bool,
}

impl Ask for Check {
    ghost use Rattle.run_engine.specs.Asks.{IsLine};
    ghost use Rattle.run_engine.specs.Line.{not_read_line};
    ghost use Rattle.run_engine.specs.Needs.{verdict_needs};

    ghost needs_of = { λ ask. verdict_needs ask.ordered };

    ghost is_due = { λ _ shape conclusion text. IsLine shape conclusion text };

    ghost lost = { not_read_line };

    fn needs(&self) -> Needs {
        Needs::verdict(self.ordered)
    }

    fn text(
        &self,
        alloc: Global,
        _shape: &Shape,
        _bytes: &[u8],
        conclusion: &Conclusion,
    ) -> Result<String, NoMemory> {
        outcome_line(alloc, &conclusion.outcome)
    }

    fn refused(&self, alloc: Global, conclusion: &Conclusion) -> Result<String, NoMemory> {
        outcome_line(alloc, &conclusion.outcome)
    }

    fn no_memory(&self) -> &'static [u8] {
        no_memory_line()
    }

    fn not_read(&self) -> &'static [u8] {
        not_read_line()
    }
}
