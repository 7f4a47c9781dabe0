//! What a person is told of words that are none of a command.

use clap::Error;
use std::alloc::{AllocError, Global};

/// Why the words are none of a command.
#[derive(Drop)]
pub enum UsageFault {
    /// A word is wrong or missing, as this says.
    Words(Error),
    /// Each word is right. What they ask for together is not.
    Request(&'static str),
}

/// What clap says in one line: the mistake, and the word that is nearest.
fn one_line(alloc: Global, error: &Error) -> Result<String, AllocError> {
    let text = format!(in alloc; "{error}")?;
    let mut line = String::new(alloc);
    for part in text.lines() {
        if part.is_empty() || part.starts_with("Usage: ") || part.starts_with("For more ") {
            continue;
        }
        if line.ends_with(':') {
            line.push_str(" ")?;
        } else if !line.is_empty() {
            line.push_str("; ")?;
        }
        let part = part.trim();
        let part = part.strip_prefix("error: ").unwrap_or(part);
        line.push_str(part.strip_prefix("tip: ").unwrap_or(part))?;
    }
    Ok(line)
}

fn is_command(name: &str) -> bool {
    matches!(
        name,
        "check"
            | "stats"
            | "explain"
            | "cover"
            | "demo"
            | "watch"
            | "dump"
            | "assemble"
            | "shrink"
            | "view"
    )
}

impl UsageFault {
    /// What was wrong with these words, and which help says more, in one line.
    pub fn line(&self, alloc: Global, words: &[String]) -> Result<String, AllocError> {
        let mut line = match self {
            UsageFault::Words(error) => one_line(alloc, error)?,
            UsageFault::Request(why) => String::from_str(alloc, why)?,
        };
        line.push_str("; see score help")?;
        if let Some(name) = words.get(1) {
            if is_command(name) {
                line.push_str(" ")?;
                line.push_str(name)?;
            }
        }
        Ok(line)
    }
}
