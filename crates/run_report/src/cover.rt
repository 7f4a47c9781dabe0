//! The coverage of a legal trace.

ghost use Rattle.std.specs.Prelude.{◌≡◌, IfOk, string_bytes};
ghost use Rattle.lf_rules.specs.InRange.{IsShape};
ghost use Rattle.explain_why.specs.Logs.{IsCountable};
ghost use Rattle.run_report.specs.Cover.{IsCoverageOf, text_of};

use count_coverage::{Coverage, CoverageData, cover};
use explain_why::packed_logs_in;
use lf_rules::{NoMemory, Shape};
use lf_verdict::{Conclusion, Outcome};
use run_engine::{Ask, Needs, no_memory_line, not_read_line, outcome_line};
use std::alloc::Global;

/// How the coverage is written.
#[derive(Clone, Copy)]
pub enum CoverageForm {
    /// A line for each point that was not reached, one for each point that was, and how many were.
    Lines,
    /// As Verilator's file `coverage.dat` has it: its first line, and one for each point.
    Data,
}

/// The coverage of a legal trace. Otherwise the line of the verdict is written.
#[derive(Clone, Copy)]
pub struct Cover {
    pub form: CoverageForm,
}

/// The coverage of the trace in these bytes.
fn coverage_of(alloc: Global, shape: &Shape, bytes: &[u8]) -> Result<Coverage, NoMemory>
    requires in_range { IsShape shape.now }
    requires countable { IsCountable shape.now bytes.now }
    ensures { IfOk result (IsCoverageOf shape.now bytes.now) }
{
    let logs = packed_logs_in(alloc, shape, bytes)?;
    cover(alloc, shape, &logs)
}

/// The text of a coverage.
fn text_of(alloc: Global, coverage: &Coverage, form: CoverageForm) -> Result<String, NoMemory>
    ensures { IfOk result (λ text. string_bytes text ≡ text_of form coverage.now) }
{
    match form {
        CoverageForm::Lines => Ok(format!(in alloc; "{coverage}")?),
        CoverageForm::Data => {
            let data = CoverageData(coverage);
            Ok(format!(in alloc; "{data}")?)
        }
    }
}

impl Ask for Cover {
    ghost use Rattle.run_engine.specs.Asks.{IsReport};
    ghost use Rattle.run_engine.specs.Line.{not_read_line};
    ghost use Rattle.run_engine.specs.Needs.{bytes_needs};
    ghost use Rattle.run_report.specs.Cover.{IsCovered};
    ghost use Rattle.std.specs.Prelude.{false};

    ghost needs_of = { λ _. bytes_needs false };

    ghost is_due = { λ ask shape conclusion text. IsReport (IsCovered ask.form) shape conclusion text };

    ghost lost = { not_read_line };

    fn needs(&self) -> Needs {
        Needs::bytes(false)
    }

    fn text(
        &self,
        alloc: Global,
        shape: &Shape,
        bytes: &[u8],
        conclusion: &Conclusion,
    ) -> Result<String, NoMemory> {
        match &conclusion.outcome {
            Outcome::Yes { .. } => {
                let coverage = coverage_of(alloc, shape, bytes)?;
                text_of(alloc, &coverage, self.form)
            }
            outcome => outcome_line(alloc, outcome),
        }
    }

    fn refused(&self, alloc: Global, conclusion: &Conclusion) -> Result<String, NoMemory> {
        outcome_line(alloc, &conclusion.outcome)
    }

    fn no_memory(&self) -> &'static [u8] {
        no_memory_line()
    }

    fn not_read(&self) -> &'static [u8] {
        not_read_line()
    }
}
