//! The words of a line, one after another.

ghost use Rattle.std.specs.Prelude.{◌≡◌, ◌≤◌, Bool, length};
ghost use Rattle.std.specs.List.{prefix_len};
ghost use Rattle.text_parse.specs.Words.{is_blank, is_of_word, without_blanks, word_of, after_word, is_over};

fn is_blank(byte: u8) -> bool
    ensures { result ≡ is_blank byte }
{
    byte == b' ' || (byte == b'\t' || byte == b'\r')
}

fn is_of_word(byte: u8) -> bool
    ensures { result ≡ is_of_word byte }
{
    !(is_blank(byte) || byte == b';')
}

fn blanks_len(text: &[u8]) -> usize
    ensures within { result ≤ length text.now }
    ensures value { result ≡ prefix_len is_blank text.now }
{
    text.iter().take_while(|byte| is_blank(**byte)).count()
}

fn word_len(text: &[u8]) -> usize
    ensures within { result ≤ length text.now }
    ensures value { result ≡ prefix_len is_of_word text.now }
{
    text.iter().take_while(|byte| is_of_word(**byte)).count()
}

/// The text without the blanks in front.
pub(crate) fn without_blanks(text: &[u8]) -> &[u8]
    ensures { result.now ≡ without_blanks text.now }
{
    text.split_at(blanks_len(text)).1
}

/// The word in front, and the text behind it.
pub(crate) fn split_word(text: &[u8]) -> (&[u8], &[u8])
    ensures word { result.0.now ≡ word_of text.now }
    ensures rest { result.1.now ≡ after_word text.now }
{
    text.split_at(word_len(text))
}

/// Whether no word is left: the line ends, or a comment begins.
pub(crate) fn is_over(text: &[u8]) -> bool
    ensures { result ≡ is_over text.now }
{
    match text {
        [] => true,
        [first, ..] => *first == b';',
    }
}
