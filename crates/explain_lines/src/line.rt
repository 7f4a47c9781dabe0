//! The lines of a map.

ghost use Rattle.std.specs.Prelude.{◌≡◌};
ghost use Rattle.explain_lines.specs.Stamp.{word_of, after_word, is_silent, stamp_of, said_by};
ghost use Rattle.explain_lines.specs.Steps.{Gives, Tells};

use crate::fault::MapCause;
use crate::number::{log_of, number_of};

/// The time of the record at a place in a log.
#[derive(Clone, Copy)]
pub(crate) struct Entry<'a> {
    pub log: u8,
    pub place: u64,
    pub time: &'a str,
}

/// The word in front, up to the first blank, and the text behind that blank.
fn split_word(text: &str) -> (&str, &str)
    ensures word { result.0.now ≡ word_of text.now }
    ensures rest { result.1.now ≡ after_word text.now }
{
    match text.split_once(' ') {
        Some(parts) => parts,
        None => (text, ""),
    }
}

/// What a line tells, if it is neither empty nor a comment.
fn read_entry(line: &str) -> Result<Entry<'_>, MapCause>
    ensures { Gives result (stamp_of line.now) }
{
    let (number, rest) = split_word(line);
    let log = log_of(number).ok_or(MapCause::Log)?;
    let (digits, time) = split_word(rest);
    let place = number_of(digits).ok_or(MapCause::Place)?;
    if time.is_empty() {
        return Err(MapCause::Time);
    }
    Ok(Entry { log, place, time })
}

/// Whether a line tells nothing.
fn is_silent(line: &str) -> bool
    ensures { result ≡ is_silent line.now }
{
    line.is_empty() || line.starts_with('#')
}

/// What a line tells.
pub(crate) fn read_line(line: &str) -> Result<Option<Entry<'_>>, MapCause>
    ensures { Tells result (said_by line.now) }
{
    if is_silent(line) {
        return Ok(None);
    }
    Ok(Some(read_entry(line)?))
}
