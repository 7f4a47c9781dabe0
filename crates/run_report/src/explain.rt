//! Why the verdict is what it is.

ghost use Rattle.std.specs.Prelude.{◌≡◌, ◌∷◌, ◌++◌, IfOk, string_bytes};
ghost use Rattle.lf_verdict.specs.declared.answer.Outcome.TheVariants.{Refused};
ghost use Rattle.lf_verdict.specs.declared.answer.Refusal.TheVariants.{Config};
ghost use Rattle.explain_lines.specs.Marks.{told_by};
ghost use Rattle.explain_refusal.specs.Config.{config_text};
ghost use Rattle.explain_why.specs.Why.{why_text};
ghost use Rattle.run_engine.specs.Line.{outcome_text};
ghost use Rattle.run_report.specs.Explain.{told_if, TellsConfig, IsRefused};
ghost use Rattle.run_report.specs.Headline.{line_text};

use crate::headline::{Headline, headline_of};
use explain_refusal::{ConfigRefusal, toml_fault};
use explain_why::{Asked, Judgement, WhyText, why_of};
use lf_config::ConfigFault;
use lf_rules::{NoMemory, Shape};
use lf_verdict::{Conclusion, Incomplete, Outcome, Refusal};
use run_engine::{Ask, Needs, no_memory_line, not_read_line, outcome_line};
use std::alloc::Global;

/// Why the verdict is what it is. The line of the verdict is written, an empty line, and then why:
///
/// - of a no, where a record of a port or of a bank breaks a rule: that record, what the rule asks, what the record has
///   to carry and carries where the rule is about that, the state that the rule is about, and the last records before
///   it that matter, at most so many; where the numbers of a bank give no order, the records with the number or beside
///   it; where logs wait for one another, the records that wait and those that they wait for; and what broke first,
///   where that is something else;
/// - of a yes, what the trace used at most of what the configuration has; or, where complete traces are asked for and a
///   request has no reply, the first such request and the last records of its bank at its block, behind the line of
///   that request in the place of the verdict's;
/// - of bytes that are no trace, the field that fails, and what it may have; and what broke first before it;
/// - of a trace of another hierarchy, the numbers that differ;
/// - of a text that is no configuration, what its key may have, or where the text stops to be TOML.
///
/// A record is told with its time where there is one. Where it is asked for, of a no what broke first is told alone,
/// behind its own line.
#[derive(Clone, Copy)]
pub struct Explain<'a> {
    pub asked: Asked<'a>,
    /// The text of the configuration.
    pub config: &'a str,
}

/// The request without a reply that is told, where complete traces are asked for.
pub fn told_if(complete: bool, found: Option<Incomplete>) -> Option<Incomplete>
    ensures { result ≡ told_if complete found }
{
    if complete { found } else { None }
}

/// A line, and after an empty line why.
fn behind_line(alloc: Global, line: Headline<'_>, why: WhyText<'_>) -> Result<String, NoMemory>
    ensures { IfOk result (λ text. string_bytes text
        ≡ line_text line.entry ++ 10 ∷ 10 ∷ why_text why.entry.shape.now why.entry.bytes.now why.entry.why.now) }
{
    Ok(format!(in alloc; "{line}\n\n{why}")?)
}

/// The line of a configuration's fault, and after an empty line why.
fn behind_fault(alloc: Global, why: ConfigRefusal<'_>) -> Result<String, NoMemory>
    ensures { IfOk result (λ told. string_bytes told
        ≡ outcome_text (Refused (Config why.entry.fault.now))
        ++ 10 ∷ 10 ∷ config_text why.entry.fault.now why.entry.stop.now why.entry.text.now) }
{
    let fault = why.fault;
    Ok(format!(in alloc; "refused config {fault}\n\n{why}")?)
}

/// What is told of a configuration that is refused.
fn fault_text(alloc: Global, fault: &ConfigFault, text: &str) -> Result<String, NoMemory>
    ensures { IfOk result (λ told. TellsConfig text.now fault.now (string_bytes told)) }
{
    let stop = &toml_fault(alloc, text)?;
    behind_fault(alloc, ConfigRefusal { text, fault, stop })
}

/// What is told of a refusal that comes before the trace is asked for.
fn refused_text(alloc: Global, outcome: &Outcome, text: &str) -> Result<String, NoMemory>
    ensures { IfOk result (λ told. IsRefused text.now outcome.now (string_bytes told)) }
{
    let Outcome::Refused(refusal) = outcome else {
        return outcome_line(alloc, outcome);
    };
    match refusal {
        Refusal::Config(fault) => fault_text(alloc, fault, text),
        Refusal::Workers(_)
        | Refusal::Format(_)
        | Refusal::Header(_)
        | Refusal::Memory
        | Refusal::Thread => outcome_line(alloc, outcome),
    }
}

impl Ask for Explain<'_> {
    ghost use Rattle.run_engine.specs.Line.{not_read_line};
    ghost use Rattle.run_engine.specs.Needs.{bytes_needs};
    ghost use Rattle.run_report.specs.Explain.{IsExplained};
    ghost use Rattle.std.specs.Prelude.{true};

    ghost needs_of = { λ _. bytes_needs true };

    ghost is_due = { λ ask shape conclusion text. IsExplained ask.config.now (told_by ask.asked.times) ask.asked.most
        ask.asked.complete ask.asked.first shape conclusion text };

    ghost lost = { not_read_line };

    fn needs(&self) -> Needs {
        Needs::bytes(true)
    }

    fn text(
        &self,
        alloc: Global,
        shape: &Shape,
        bytes: &[u8],
        conclusion: &Conclusion,
    ) -> Result<String, NoMemory> {
        let judged = Judgement {
            outcome: &conclusion.outcome,
            earliest: &conclusion.broken,
            incomplete: told_if(self.asked.complete, conclusion.incomplete),
        };
        match why_of(alloc, shape, bytes, &judged, &self.asked)? {
            Some(why) => {
                let line = headline_of(self.asked.first, &judged);
                let text = WhyText {
                    shape,
                    bytes,
                    why: &why,
                };
                behind_line(alloc, line, text)
            }
            None => outcome_line(alloc, judged.outcome),
        }
    }

    fn refused(&self, alloc: Global, conclusion: &Conclusion) -> Result<String, NoMemory> {
        refused_text(alloc, &conclusion.outcome, self.config)
    }

    fn no_memory(&self) -> &'static [u8] {
        no_memory_line()
    }

    fn not_read(&self) -> &'static [u8] {
        not_read_line()
    }
}
