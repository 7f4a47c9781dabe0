//! Whether each request of a legal trace has a reply.

ghost use Rattle.std.specs.Prelude.{◌≡◌, IfOk, string_bytes};
ghost use Rattle.run_engine.specs.Asks.{incomplete_line};

use crate::ask::{Ask, Needs};
use crate::line::{Line, no_memory_line, not_read_line, outcome_line};
use lf_rules::{NoMemory, Shape};
use lf_verdict::{Conclusion, Incomplete};
use std::alloc::Global;

/// Whether each request of a legal trace has a reply at its end. Where one has none, the line of the first is written,
/// the lowest tag of the lowest port. Otherwise the line of the verdict is.
#[derive(Clone, Copy)]
pub struct Complete;

/// The line of a request without a reply.
fn incomplete_line(alloc: Global, found: Incomplete) -> Result<String, NoMemory>
    ensures { IfOk result (λ text. string_bytes text ≡ incomplete_line found) }
{
    let line = Line::Incomplete(found);
    Ok(format!(in alloc; "{line}\n")?)
}

impl Ask for Complete {
    ghost use Rattle.std.specs.Prelude.{false};
    ghost use Rattle.run_engine.specs.Asks.{IsCompletion};
    ghost use Rattle.run_engine.specs.Line.{not_read_line};
    ghost use Rattle.run_engine.specs.Needs.{verdict_needs};

    ghost needs_of = { λ _. verdict_needs false };

    ghost is_due = { λ _ shape conclusion text. IsCompletion shape conclusion text };

    ghost lost = { not_read_line };

    fn needs(&self) -> Needs {
        Needs::verdict(false)
    }

    fn text(
        &self,
        alloc: Global,
        _shape: &Shape,
        _bytes: &[u8],
        conclusion: &Conclusion,
    ) -> Result<String, NoMemory> {
        match conclusion.incomplete {
            Some(found) => incomplete_line(alloc, found),
            None => outcome_line(alloc, &conclusion.outcome),
        }
    }

    fn refused(&self, alloc: Global, conclusion: &Conclusion) -> Result<String, NoMemory> {
        outcome_line(alloc, &conclusion.outcome)
    }

    fn no_memory(&self) -> &'static [u8] {
        no_memory_line()
    }

    fn not_read(&self) -> &'static [u8] {
        not_read_line()
    }
}
