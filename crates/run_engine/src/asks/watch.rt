//! What broke for good, as soon as something did.

ghost use Rattle.std.specs.Prelude.{◌≡◌, IfOk, string_bytes};
ghost use Rattle.run_engine.specs.Asks.{broken_line};

use crate::ask::{Ask, Needs};
use crate::line::{no_memory_line, not_read_line, outcome_line};
use lf_rules::{NoMemory, Shape};
use lf_verdict::{Asked, Broken, Conclusion};
use std::alloc::Global;

/// What broke for good, with the first record upon which a part did. No more is read then. Otherwise the line of the
/// verdict is written. What stands in the bytes of a read is told before the next read, and what is told depends on the
/// bytes of the trace alone (`watches_are_one`).
#[derive(Clone, Copy)]
pub struct Watch;

/// The line of what broke.
fn broken_line(alloc: Global, found: &Broken) -> Result<String, NoMemory>
    ensures { IfOk result (λ text. string_bytes text ≡ broken_line found.now) }
{
    Ok(format!(in alloc; "broken {found}\n")?)
}

impl Ask for Watch {
    ghost use Rattle.run_engine.specs.Asks.{IsWatched};
    ghost use Rattle.run_engine.specs.Line.{not_read_line};
    ghost use Rattle.run_engine.specs.Needs.{watch_needs};

    ghost needs_of = { λ _. watch_needs };

    ghost is_due = { λ _ shape conclusion text. IsWatched shape conclusion text };

    ghost lost = { not_read_line };

    fn needs(&self) -> Needs {
        Needs {
            asked: Asked {
                ordered: false,
                watched: true,
                counted: false,
            },
            early: true,
            bytes: false,
        }
    }

    fn text(
        &self,
        alloc: Global,
        _shape: &Shape,
        _bytes: &[u8],
        conclusion: &Conclusion,
    ) -> Result<String, NoMemory> {
        match conclusion.broken {
            Some(found) => broken_line(alloc, &found),
            None => outcome_line(alloc, &conclusion.outcome),
        }
    }

    fn refused(&self, alloc: Global, conclusion: &Conclusion) -> Result<String, NoMemory> {
        outcome_line(alloc, &conclusion.outcome)
    }

    fn no_memory(&self) -> &'static [u8] {
        no_memory_line()
    }

    fn not_read(&self) -> &'static [u8] {
        not_read_line()
    }
}
