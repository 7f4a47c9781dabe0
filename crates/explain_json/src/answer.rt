//! The answers.

ghost use Rattle.std.specs.Prelude.{◌≡◌, ◌++◌, ◌∷◌, [], codes, string_bytes, IfOk};
ghost use Rattle.serde_json.specs.Data.{no_members};
ghost use Rattle.serde_json.specs.View.{members_view};
ghost use Rattle.serde_json.specs.Written.{compact_text};
ghost use Rattle.explain_json.specs.Answer.{word_of, told, IsTextOf, IsAnswer};

use crate::fault::{set_broken_before, set_faults};
use crate::incomplete::incomplete_json;
use crate::object::Object;
use crate::usage::usage_json;
use explain_refusal::{ConfigRefusal, FormatRefusal, toml_fault};
use explain_why::{Why, WhyText};
use lf_rules::{NoMemory, Shape};
use lf_verdict::{Outcome, Refusal};
use serde_json::Value;
use std::alloc::Global;
use std::fmt;

/// What the verdict is on, and why it is what it is.
#[derive(Clone, Copy)]
pub struct Told<'a> {
    pub shape: &'a Shape,
    /// The bytes of the trace.
    pub bytes: &'a [u8],
    pub why: &'a Why,
}

/// The answer of a run that came to a verdict.
#[derive(Clone, Copy)]
pub struct Answer<'a> {
    /// The line of the verdict, without a newline.
    pub line: &'a str,
    pub outcome: &'a Outcome,
    /// Whether no request without a reply was found in a legal trace, or none was looked for.
    pub is_complete: bool,
    /// The text of the configuration.
    pub config: &'a str,
    /// Why the verdict is what it is, where that is told.
    pub told: Option<Told<'a>>,
}

/// The word of an answer. A legal trace that is not complete gets a no.
fn word_of(outcome: &Outcome, is_complete: bool) -> &'static str
    ensures { result.now ≡ word_of outcome.now is_complete }
{
    match outcome {
        Outcome::Yes { .. } if is_complete => "yes",
        Outcome::Yes { .. } => "no",
        Outcome::No(_) => "no",
        Outcome::Refused(_) => "refused",
    }
}

/// The lines of a text, each without its newline.
fn lines_json(alloc: Global, text: &str) -> Result<Value, NoMemory> {
    let mut list = Vec::new(alloc);
    for line in text.lines() {
        list.push(Value::try_from_str(alloc, line)?)?;
    }
    Ok(Value::Array(list))
}

/// The lines of a refusal's explanation.
fn set_lines<D: fmt::Display>(object: &mut Object, text: &D) -> Result<(), NoMemory> {
    let lines = format!(in object.alloc; "{text}")?;
    object.set("explanation", lines_json(object.alloc, lines.as_str())?)
}

/// Why the verdict is what it is.
fn set_why(object: &mut Object, told: &Told<'_>) -> Result<(), NoMemory> {
    let Told { shape, bytes, why } = *told;
    match why {
        Why::No(why) => set_faults(object, why),
        Why::Yes(usage) => object.set("used", usage_json(object.alloc, shape, usage)?),
        Why::NotComplete(why) => object.set("incomplete", incomplete_json(object.alloc, why)?),
        Why::Format {
            fault,
            count,
            broken,
        } => {
            let refusal = FormatRefusal {
                bytes,
                fault: *fault,
                count: *count,
            };
            set_lines(object, &refusal)?;
            set_broken_before(object, broken)
        }
        Why::Header => set_lines(object, &WhyText { shape, bytes, why }),
    }
}

/// What an answer says of its verdict beside the line.
fn set_verdict(object: &mut Object, answer: &Answer<'_>) -> Result<(), NoMemory> {
    match answer.outcome {
        Outcome::Yes { events } if answer.is_complete => {
            object.set("events", Value::from(*events))
        }
        Outcome::Refused(Refusal::Config(fault)) => {
            let stop = toml_fault(object.alloc, answer.config)?;
            let refusal = ConfigRefusal {
                text: answer.config,
                fault,
                stop: &stop,
            };
            set_lines(object, &refusal)
        }
        _ => Ok(()),
    }
}

/// The text of the object with the line and the word of the verdict.
fn answer_text(mut object: Object, line: &str, word: &str) -> Result<String, NoMemory>
    ensures { IfOk result (λ text.
        IsTextOf (told line.now word.now (members_view object.members.entries)) (string_bytes text)) }
{
    object.set_text("line", line)?;
    object.set_text("verdict", word)?;
    let alloc = object.alloc;
    let mut text = object.done().to_string(alloc)?;
    text.push('\n')?;
    Ok(text)
}

/// A verdict and why it is what it is, as an object on a line, with a newline at its end.
pub fn explained_json(alloc: Global, answer: &Answer<'_>) -> Result<String, NoMemory>
    ensures { IfOk result (λ text.
        IsAnswer answer.now.line.now (word_of answer.now.outcome.now answer.now.is_complete) (string_bytes text)) }
{
    let mut object = Object::new(alloc);
    set_verdict(&mut object, answer)?;
    if let Some(told) = &answer.told {
        set_why(&mut object, told)?;
    }
    let word = word_of(answer.outcome, answer.is_complete);
    answer_text(object, answer.line, word)
}

/// The line of a run that came to no verdict, as an object on a line, with a newline at its end.
pub fn refused_json(alloc: Global, line: &str) -> Result<String, NoMemory>
    ensures { IfOk result (λ text.
        string_bytes text ≡ compact_text (told line.now (codes "refused") no_members) ++ 10 ∷ []) }
{
    answer_text(Object::new(alloc), line, "refused")
}

/// The answer of a run whose trace was not read. It takes no memory.
pub fn not_read_json() -> &'static str
    ensures { result.now ≡ compact_text (told (codes "refused read trace") (codes "refused") no_members) ++ 10 ∷ [] }
{
    "{\"line\":\"refused read trace\",\"verdict\":\"refused\"}\n"
}

/// The answer of a run that was refused a growth. It takes no memory.
pub fn no_memory_json() -> &'static str
    ensures { result.now ≡ compact_text (told (codes "refused memory") (codes "refused") no_members) ++ 10 ∷ [] }
{
    "{\"line\":\"refused memory\",\"verdict\":\"refused\"}\n"
}
