//! `score demo CONFIG OUT`.

use crate::Request;
use crate::argument::{Argument, CONFIG, OUT};
use crate::files::LEFT_OUT;
use clap::ArgMatches;

/// What the help says of `demo`.
pub const ABOUT: &str = "Runs a small cache in threads for a configuration, and writes its trace";

/// What the help says after the arguments.
pub const HELP: &str = "\
Answers:
  demo events=200              so many events are written
  refused write                the file cannot be written
  refused turns                a thread made no progress
  refused thread               a thread was refused
  refused config Missing tags  the configuration says no hierarchy
  refused read config          the file cannot be read
  refused usage                the words are none of a command
  refused memory               there is not enough memory

Two runs may write different traces: the threads run as they come.

OUT is written beside its place first and then renamed. If OUT is -, it is
standard output, and the line goes to standard error.

Exit status:
  0  written
  2  refused

Examples:
  score demo small.toml demo.lfts && score check small.toml demo.lfts";

pub const ARGUMENTS: &[Argument] = &[CONFIG, OUT];

pub fn request<'a>(matches: &ArgMatches<'a>) -> Result<Request<'a>, &'static str> {
    Ok(Request::Demo {
        config: matches.get_str("CONFIG").ok_or(LEFT_OUT)?,
        out: matches.get_str("OUT").ok_or(LEFT_OUT)?,
    })
}
