//! A refused text as a person reads it: the fault, its line, and a mark under the place.

ghost use Rattle.std.specs.Prelude.{◌≡◌, ◌-◌, Bool, Some, take, drop, min};
ghost use Rattle.std.specs.List.{flat_map, prefix_len, slice_split};
ghost use Rattle.text_assemble.specs.Assembly.{is_newline};
ghost use Rattle.text_assemble.specs.Refusal.{is_margin, line_in, place_of, window, before, shown, blank, label_text};
ghost use Rattle.text_assemble.specs.Refusal.{excerpt_text, refusal_text};

use crate::assembling::split_line;
use crate::fault::{AssembleCause, AssembleFault};
use itoa::Buffer;
use std::fmt;

/// How many bytes of a line are shown.
const WIDTH: usize = 160;

/// How many of these stand before the place of the fault, where the line is longer.
const BEFORE: usize = 120;

/// The line of this number, from 1 on.
fn line_at(text: &[u8], number: u64) -> &[u8]
    ensures { result.now ≡ line_in (slice_split is_newline text.now) number }
{
    let mut left = number;
    let mut rest = Some(text);
    while let Some(ahead) = rest {
        let (line, behind) = split_line(ahead);
        if left <= 1 {
            return line;
        }
        left -= 1;
        rest = behind;
    }
    &[]
}

fn is_margin(byte: u8) -> bool
    ensures { result ≡ is_margin byte }
{
    byte == b' ' || byte == b'\t'
}

/// How many blanks stand before the first word.
fn margin_len(line: &[u8]) -> usize
    ensures { result ≡ prefix_len is_margin line.now }
{
    line.iter().take_while(|byte| is_margin(**byte)).count()
}

/// How many bytes of the line stand before the place of the fault.
fn place_of(cause: &AssembleCause, line: &[u8]) -> usize
    ensures { result ≡ place_of cause.now line.now }
{
    match cause {
        AssembleCause::Text(fault) => fault.column.saturating_sub(1),
        _ => margin_len(line),
    }
}

/// The first bytes, at most so many.
fn up_to(count: usize, bytes: &[u8]) -> &[u8]
    ensures { result.now ≡ take count bytes.now }
{
    &bytes[..count.min(bytes.len())]
}

/// The bytes behind so many.
fn behind(count: usize, bytes: &[u8]) -> &[u8]
    ensures { result.now ≡ drop count bytes.now }
{
    bytes.split_at(count.min(bytes.len())).1
}

/// The bytes of the line that are shown.
fn window(place: usize, line: &[u8]) -> &[u8]
    ensures { result.now ≡ window place line.now }
{
    up_to(WIDTH, behind(place.saturating_sub(BEFORE), line))
}

/// A byte as it is shown: a terminal takes none for a command.
#[derive(Clone, Copy)]
struct Shown(u8);

impl fmt::Display for Shown {
    ghost output = { λ byte. Some (shown byte.0) };

    fn fmt<W: fmt::Write>(&self, f: &mut fmt::Formatter<W>) -> fmt::Result {
        match self.0 {
            b'\t' => f.write_char(' '),
            byte @ b' '..=b'~' => f.write_char(char::from(byte)),
            _ => f.write_char('?'),
        }
    }
}

#[derive(Clone, Copy)]
struct ShownBytes<'a>(&'a [u8]);

impl fmt::Display for ShownBytes<'_> {
    ghost output = { λ bytes. Some (flat_map shown bytes.0.now) };

    fn fmt<W: fmt::Write>(&self, f: &mut fmt::Formatter<W>) -> fmt::Result {
        for byte in self.0 {
            let byte = Shown(*byte);
            write!(f, "{byte}")?;
        }
        Ok(())
    }
}

/// A blank under each byte.
#[derive(Clone, Copy)]
struct Blanks<'a>(&'a [u8]);

impl fmt::Display for Blanks<'_> {
    ghost output = { λ bytes. Some (flat_map blank bytes.0.now) };

    fn fmt<W: fmt::Write>(&self, f: &mut fmt::Formatter<W>) -> fmt::Result {
        for _byte in self.0 {
            write!(f, " ")?;
        }
        Ok(())
    }
}

/// What stands beside the mark.
#[derive(Clone, Copy)]
struct Label(AssembleCause);

impl fmt::Display for Label {
    ghost output = { λ label. Some (label_text label.0) };

    fn fmt<W: fmt::Write>(&self, f: &mut fmt::Formatter<W>) -> fmt::Result {
        match self.0 {
            AssembleCause::Text(fault) => {
                let due = fault.expected;
                write!(f, "expected {due}")
            }
            AssembleCause::Part(part) => write!(f, "expected {part}"),
            AssembleCause::Bytes { len } => write!(f, "expected {len} bytes"),
            AssembleCause::Masks { count } => write!(f, "expected {count} masks"),
            AssembleCause::Factor => f.write_str("expected factor=1 before version 3"),
            AssembleCause::Format(cause) => write!(f, "{cause}"),
            AssembleCause::Memory => Ok(()),
        }
    }
}

/// A line with its number, and below it the mark.
#[derive(Clone, Copy)]
struct Excerpt<'a> {
    number: u64,
    cause: AssembleCause,
    line: &'a [u8],
}

impl fmt::Display for Excerpt<'_> {
    ghost output = { λ excerpt. Some (excerpt_text excerpt.number excerpt.cause excerpt.line.now) };

    fn fmt<W: fmt::Write>(&self, f: &mut fmt::Formatter<W>) -> fmt::Result {
        let number = self.number;
        let place = place_of(&self.cause, self.line);
        let bytes = window(place, self.line);
        let mut buffer = Buffer::new();
        let margin = Blanks(buffer.format(number).as_bytes());
        let shown = ShownBytes(bytes);
        let under = Blanks(up_to(place.min(BEFORE), bytes));
        let label = Label(self.cause);
        write!(f, "{number} | {shown}\n{margin} | {under}^ {label}")
    }
}

/// The fault of a text, with the line at which it shows and a mark under the place. Of a long line the part
/// around the place is shown.
#[derive(Clone, Copy)]
pub struct Refusal<'a> {
    pub fault: AssembleFault,
    /// The whole text.
    pub text: &'a [u8],
}

impl fmt::Display for Refusal<'_> {
    ghost output = { λ refusal. Some (refusal_text refusal.fault refusal.text.now) };

    fn fmt<W: fmt::Write>(&self, f: &mut fmt::Formatter<W>) -> fmt::Result {
        let fault = self.fault;
        let AssembleFault { line, cause } = fault;
        if let AssembleCause::Memory = cause {
            return write!(f, "{fault}");
        }
        let excerpt = Excerpt {
            number: line,
            cause,
            line: line_at(self.text, line),
        };
        write!(f, "{fault}\n{excerpt}")
    }
}
