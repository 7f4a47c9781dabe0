//! `score assemble TEXT OUT`.

use crate::Request;
use crate::argument::{Argument, OUT, Takes};
use crate::files::LEFT_OUT;
use clap::ArgMatches;

/// What the help says of `assemble`.
pub const ABOUT: &str = "Writes the trace whose text this is, as dump prints it";

/// What the help says after the arguments.
pub const HELP: &str = "\
Nothing is printed where the trace is written. Lines may be empty, and a
semicolon begins a comment. Between words may stand any spaces and tabs.
A text may leave out version=, which is then the least that has its kinds of
events and its factor; number=, which is then the next of its bank; and the
line of the end. Below the line of a refusal stands the line of the text, with
a mark under the place. Where OUT is - a refusal goes to standard error.

A text that is refused leaves OUT as it was: OUT is written beside its place
and then renamed.

Answers:
  refused text line=3 column=9 expected tag=  the line cannot be read
  refused text line=2 expected memory         another line is due there
  refused text line=4 expected 8 bytes        it carries too many or too few
  refused format WrongBank line=5             no trace may have this record
  refused format Truncated line=9             the header or the memory lacks lines
  refused read text                           the file cannot be read
  refused write                               the file cannot be written
  refused usage                               the words are none of a command
  refused memory                              there is not enough memory

Exit status:
  0  written
  2  refused

Examples:
  score assemble run.text run.lfts
  score dump run.lfts | sed 's/size=4/size=8/' | score assemble - new.lfts
  score assemble run.text - | score check small.toml -";

pub const ARGUMENTS: &[Argument] = &[
    Argument {
        name: "TEXT",
        takes: Takes::Word,
        value: "",
        default: "",
        help: "The text of a trace, or -",
    },
    OUT,
];

pub fn request<'a>(matches: &ArgMatches<'a>) -> Result<Request<'a>, &'static str> {
    Ok(Request::Assemble {
        text: matches.get_str("TEXT").ok_or(LEFT_OUT)?,
        out: matches.get_str("OUT").ok_or(LEFT_OUT)?,
    })
}
