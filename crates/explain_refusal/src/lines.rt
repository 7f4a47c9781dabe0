//! The lines of a text: that of an offset, and that at which a key stands.

ghost use Rattle.std.specs.Prelude.{◌≡◌, ◌≤◌, ◌∷◌, Bool, length, option_map};
ghost use Rattle.std.specs.List.{slice_split, position_or_len};
ghost use Rattle.explain_refusal.specs.Lines.{is_newline, lines_in, left_in, is_inside, characters, line_at_in};
ghost use Rattle.explain_refusal.specs.Keys.{key_line_in};

use crate::bytes::{behind, up_to};
use crate::keys::{KeyPlace, Stand, next_stand, says_at};

/// A line, and its number from 1 on.
#[derive(Clone, Copy)]
pub(crate) struct NumberedLine<'a> {
    pub number: u64,
    pub line: &'a [u8],
}

/// A place in a line: its column counts characters from 1 on.
#[derive(Clone, Copy)]
pub(crate) struct LinePlace<'a> {
    pub column: u64,
    pub line: NumberedLine<'a>,
}

/// How many bytes stand before the first newline.
fn line_len(text: &[u8]) -> usize
    ensures within { result ≤ length text.now }
    ensures value { result ≡ position_or_len is_newline text.now }
{
    text.iter().take_while(|byte| **byte != b'\n').count()
}

/// The first line of a text, and what stands behind its newline, where it has one.
fn split_line(text: &[u8]) -> (&[u8], Option<&[u8]>)
    ensures lines { slice_split is_newline text.now ≡ result.0.now ∷ lines_in result.1 }
    ensures shorter { left_in result.1 ≤ length text.now }
{
    let len = line_len(text);
    if len < text.len() {
        (up_to(text, len as u64), Some(behind(text, len + 1)))
    } else {
        (text, None)
    }
}

/// The first line that says the key.
pub(crate) fn key_line<'a>(text: &'a [u8], place: KeyPlace<'_>) -> Option<NumberedLine<'a>>
    ensures { option_map (λ l. (l.number, l.line.now)) result
        ≡ key_line_in place.entry.table.now place.entry.name.now text.now }
{
    let mut number = 1;
    let mut stand = Stand::Top;
    let mut rest = Some(text);
    while let Some(ahead) = rest {
        let (line, behind) = split_line(ahead);
        if says_at(stand, place, line) {
            return Some(NumberedLine { number, line });
        }
        stand = next_stand(stand, place.table, line);
        number += 1;
        rest = behind;
    }
    None
}

/// Whether the byte is inside a character of several bytes.
fn is_inside(byte: u8) -> bool
    ensures { result ≡ is_inside byte }
{
    (128..=191).contains(&byte)
}

/// How many characters begin in these bytes.
fn characters(bytes: &[u8]) -> u64
    ensures count { result ≡ characters bytes.now }
    ensures few { result ≤ length bytes.now }
{
    bytes.iter().filter(|byte| !is_inside(**byte)).count() as u64
}

/// The line in which so many bytes of the text end.
pub(crate) fn line_at(text: &[u8], offset: usize) -> Option<LinePlace<'_>>
    ensures { option_map (λ p. (p.line.number, (p.column, p.line.line.now))) result
        ≡ line_at_in offset text.now }
{
    let mut number = 1;
    let mut left = offset;
    let mut rest = Some(text);
    while let Some(ahead) = rest {
        let (line, behind) = split_line(ahead);
        if left <= line.len() {
            let column = characters(up_to(line, left as u64)) + 1;
            let line = NumberedLine { number, line };
            return Some(LinePlace { column, line });
        }
        left -= line.len() + 1;
        number += 1;
        rest = behind;
    }
    None
}
