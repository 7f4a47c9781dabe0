//! The line of an answer, in a buffer of the caller's. It has no newline and no zero at its end.

ghost use Rattle.std.specs.Prelude.{◌≡◌, MatchResult, string_bytes};
ghost use Rattle.run_engine.specs.Line.{outcome_text};
ghost use Rattle.library_c.specs.Answers.{over, IsTold, IsQuiet, broken_words};

use lf_verdict::{Broken, Outcome};
use run_engine::Line;
use std::alloc::{AllocError, Global};

/// Writes as much of the text as there is room for.
fn write_over(text: &[u8], line: &mut [u8])
    ensures { line.new ≡ over text.now line.old }
{
    let n = text.len().min(line.len());
    line[..n].copy_from_slice(&text[..n]);
}

/// Writes the text, and answers its whole length. Without memory for it nothing is written, and 0 is answered.
fn put(text: Result<String, AllocError>, line: &mut [u8]) -> usize
    ensures { MatchResult text (λ t. IsTold (string_bytes t) line.old line.new result)
        (λ _. IsQuiet line.old line.new result) }
{
    match text {
        Ok(text) => {
            write_over(text.as_bytes(), line);
            text.len()
        }
        Err(_) => 0,
    }
}

/// Writes the line of the verdict, and answers its length.
pub(crate) fn tell_outcome(alloc: Global, outcome: &Outcome, line: &mut [u8]) -> usize
    ensures { IsTold (outcome_text outcome.now) line.old line.new result }
{
    let told = Line::Concluded(outcome);
    put(format!(in alloc; "{told}"), line)
}

/// Writes the line of what broke, and answers its length.
pub(crate) fn tell_broken(alloc: Global, found: &Broken, line: &mut [u8]) -> usize
    ensures { IsTold (broken_words found.now) line.old line.new result }
{
    put(format!(in alloc; "broken {found}"), line)
}
