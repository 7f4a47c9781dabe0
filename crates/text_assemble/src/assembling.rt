//! Reads the lines of a text into the bytes of a trace.

ghost use Rattle.std.specs.Prelude.{◌≡◌, ◌≤◌, ◌+◌, ◌∷◌, ◌^◌, ◌<◌, ℕ, List, length, IfOk, IfErr};
ghost use Rattle.std.specs.List.{slice_split, position_or_len};
ghost use Rattle.lf_codec.specs.Laws.{IsSomeTrace};
ghost use Rattle.text_dump.specs.Lines.{text_of};
ghost use Rattle.text_assemble.specs.declared.fault.AssembleCause.TheVariants.{Memory};
ghost use Rattle.text_assemble.specs.Assembly.{is_newline, least_of, assembled_text, Assembles};
ghost use Rattle.text_assemble.specs.Draft.{IsDraft, lines_in, left_in, Reads};

use crate::draft::Draft;
use crate::fault::AssembleFault;
use std::alloc::Global;
use text_parse::least_version;

/// How many bytes stand before the first newline.
fn line_len(text: &[u8]) -> usize
    ensures within { result ≤ length text.now }
    ensures value { result ≡ position_or_len is_newline text.now }
{
    text.iter().take_while(|byte| **byte != b'\n').count()
}

/// The first line of a text, and what stands behind its newline, where it has one.
pub(crate) fn split_line(text: &[u8]) -> (&[u8], Option<&[u8]>)
    ensures lines { slice_split is_newline text.now ≡ result.0.now ∷ lines_in result.1 }
    ensures shorter { left_in result.1 ≤ length text.now }
{
    let (line, rest) = text.split_at(line_len(text));
    match rest {
        [] => (line, None),
        [_, behind @ ..] => (line, Some(behind)),
    }
}

/// Adds each line of the text to the draft, and tells how many there were.
fn add_lines(draft: &mut Draft, text: &[u8]) -> Result<u64, AssembleFault>
    requires { IsDraft draft.old }
    ensures { Reads draft.old draft.new (slice_split is_newline text.now) result }
{
    let mut number = 0;
    let mut rest = Some(text);
    while let Some(ahead) = rest {
        let (line, behind) = split_line(ahead);
        number += 1;
        if let Err(cause) = draft.add(line) {
            return Err(AssembleFault {
                line: number,
                cause,
            });
        }
        rest = behind;
    }
    Ok(number)
}

/// The least version that has the kinds of the text's lines.
fn least_of(text: &[u8]) -> u16
    ensures { result ≡ least_of (slice_split is_newline text.now) }
{
    let mut version = 1;
    let mut rest = Some(text);
    while let Some(ahead) = rest {
        let (line, behind) = split_line(ahead);
        version = least_version(line).max(version);
        rest = behind;
    }
    version
}

/// The bytes of the trace whose text this is. A line may also be empty or have a comment alone, and each
/// line may have any comment behind it. Where the header leaves out the version, it is the least one that has
/// the factor and the kinds of the lines. A record whose line leaves out its number has the next one of its
/// bank, and where no line says the end it is behind the last record.
pub fn assemble(alloc: Global, text: &[u8]) -> Result<Vec<u8>, AssembleFault>
    ensures exact { Assembles result (assembled_text text.now) }
    // What is written is a trace.
    ensures trace { IfOk result (λ v. IsSomeTrace v.items) }
    // What was printed of a trace is read as that trace again.
    ensures again { (bytes : List ℕ) → IsSomeTrace bytes → text.now ≡ text_of bytes →
        IfOk result (λ v. v.items ≡ bytes) }
    ensures only { (bytes : List ℕ) → IsSomeTrace bytes → text.now ≡ text_of bytes →
        IfErr result (λ fault. fault.cause ≡ Memory) }
{
    let mut draft = Draft::new(alloc, least_of(text));
    let lines = add_lines(&mut draft, text)?;
    draft.end(lines)
}
