//! Whether a line of a configuration says a key.

ghost use Rattle.std.specs.Prelude.{◌≡◌, Bool, option_map};
ghost use Rattle.std.specs.List.{prefix_len};
ghost use Rattle.explain_refusal.specs.Keys.{is_blank, from_word, begins, behind_bytes, behind_word, behind_quoted};
ghost use Rattle.explain_refusal.specs.Keys.{behind_name, behind_table, ends_key, says_key, says_dotted, is_opening};
ghost use Rattle.explain_refusal.specs.Keys.{says_item, says_inline, heads, says_top, says_at, next_stand};

use crate::bytes::{behind, byte_at};

/// Where a key stands: in the table of a level, or in that of the whole text.
#[derive(Clone, Copy)]
pub(crate) struct KeyPlace<'a> {
    /// The name of the table. It is empty where that is the table of the whole text.
    pub table: &'a [u8],
    pub name: &'a [u8],
}

/// Where a line stands, seen from a table.
#[derive(Clone, Copy, PartialEq, Eq)]
pub(crate) enum Stand {
    /// Before each line that begins a table.
    Top,
    /// Under the line that begins this table.
    Inside,
    /// Under the line of another table.
    Elsewhere,
}

fn is_blank(byte: u8) -> bool
    ensures { result ≡ is_blank byte }
{
    byte == b' ' || byte == b'\t'
}

/// How many blanks stand before the first word.
fn margin_len(line: &[u8]) -> usize
    ensures { result ≡ prefix_len is_blank line.now }
{
    line.iter().take_while(|byte| is_blank(**byte)).count()
}

/// The line from its first word on.
fn from_word(line: &[u8]) -> &[u8]
    ensures { result.now ≡ from_word line.now }
{
    behind(line, margin_len(line))
}

/// Whether the first word of the line begins so.
fn begins(word: &[u8], line: &[u8]) -> bool
    ensures { result ≡ begins word.now line.now }
{
    from_word(line).starts_with(word)
}

/// What stands behind the bytes, where the text begins with them.
fn behind_bytes<'a>(bytes: &[u8], text: &'a [u8]) -> Option<&'a [u8]>
    ensures { option_map (λ r. r.now) result ≡ behind_bytes bytes.now text.now }
{
    if text.starts_with(bytes) {
        Some(behind(text, bytes.len()))
    } else {
        None
    }
}

/// What stands behind a word, where the line begins with it.
fn behind_word<'a>(word: &[u8], line: &'a [u8]) -> Option<&'a [u8]>
    ensures { option_map (λ r. r.now) result ≡ behind_word word.now line.now }
{
    behind_bytes(word, from_word(line))
}

/// The same of a name between two quotes.
fn behind_quoted<'a>(quote: &[u8], name: &[u8], line: &'a [u8]) -> Option<&'a [u8]>
    ensures { option_map (λ r. r.now) result ≡ behind_quoted quote.now name.now line.now }
{
    let quoted = behind_word(quote, line)?;
    let rest = behind_bytes(name, quoted)?;
    behind_bytes(quote, rest)
}

/// The same of a name, bare or in quotes.
fn behind_name<'a>(name: &[u8], line: &'a [u8]) -> Option<&'a [u8]>
    ensures { option_map (λ r. r.now) result ≡ behind_name name.now line.now }
{
    if begins(b"\"", line) {
        behind_quoted(b"\"", name, line)
    } else if begins(b"'", line) {
        behind_quoted(b"'", name, line)
    } else {
        behind_word(name, line)
    }
}

/// Whether a key ends here: its value follows, or the name of a part of it.
fn ends_key(rest: Option<&[u8]>) -> bool
    ensures { result ≡ ends_key (option_map (λ r. r.now) rest.entry) }
{
    match rest {
        Some(rest) => begins(b"=", rest) || begins(b".", rest),
        None => false,
    }
}

/// Whether the line has the name as its key.
fn says_key(name: &[u8], line: &[u8]) -> bool
    ensures { result ≡ says_key name.now line.now }
{
    ends_key(behind_name(name, line))
}

/// What stands behind the name of the table and a word, where the line begins with them.
fn behind_table<'a>(table: &[u8], word: &[u8], line: &'a [u8]) -> Option<&'a [u8]>
    ensures { option_map (λ r. r.now) result ≡ behind_table table.now word.now line.now }
{
    let rest = behind_name(table, line)?;
    behind_word(word, rest)
}

/// Whether the line has the names of the table and of the key, and a dot between them.
fn says_dotted(place: KeyPlace<'_>, line: &[u8]) -> bool
    ensures { result ≡ says_dotted place.entry.table.now place.entry.name.now line.now }
{
    match behind_table(place.table, b".", line) {
        Some(rest) => says_key(place.name, rest),
        None => false,
    }
}

/// Whether a key may follow in a table between braces.
fn is_opening(byte: u8) -> bool
    ensures { result ≡ is_opening byte }
{
    byte == b'{' || byte == b','
}

/// Whether a table between braces has the key.
fn says_item(name: &[u8], table: &[u8]) -> bool
    ensures { result ≡ says_item name.now table.now }
{
    (0..table.len()).any(|k| is_opening(byte_at(table, k)) && says_key(name, behind(table, k + 1)))
}

/// Whether the line has the table between braces, with the key.
fn says_inline(place: KeyPlace<'_>, line: &[u8]) -> bool
    ensures { result ≡ says_inline place.entry.table.now place.entry.name.now line.now }
{
    match behind_table(place.table, b"=", line) {
        Some(rest) => says_item(place.name, rest),
        None => false,
    }
}

/// Whether the line begins the table.
fn heads(table: &[u8], line: &[u8]) -> bool
    ensures { result ≡ heads table.now line.now }
{
    match behind_word(b"[", line) {
        Some(rest) => behind_table(table, b"]", rest).is_some(),
        None => false,
    }
}

/// Whether a line before each table says the key.
fn says_top(place: KeyPlace<'_>, line: &[u8]) -> bool
    ensures { result ≡ says_top place.entry.table.now place.entry.name.now line.now }
{
    if place.table.is_empty() {
        says_key(place.name, line) || heads(place.name, line)
    } else {
        says_dotted(place, line) || says_inline(place, line)
    }
}

/// Whether a line that stands there says the key. A name of the whole text may be that of a table.
pub(crate) fn says_at(stand: Stand, place: KeyPlace<'_>, line: &[u8]) -> bool
    ensures { result ≡ says_at stand place.entry.table.now place.entry.name.now line.now }
{
    match stand {
        Stand::Top => says_top(place, line),
        Stand::Inside => says_key(place.name, line),
        Stand::Elsewhere => place.table.is_empty() && heads(place.name, line),
    }
}

/// Where the next line stands.
pub(crate) fn next_stand(stand: Stand, table: &[u8], line: &[u8]) -> Stand
    ensures { result ≡ next_stand stand table.now line.now }
{
    if !begins(b"[", line) {
        stand
    } else if heads(table, line) {
        Stand::Inside
    } else {
        Stand::Elsewhere
    }
}
