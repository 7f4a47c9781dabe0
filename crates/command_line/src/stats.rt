//! `score stats CONFIG TRACE`.

use crate::Request;
use crate::argument::{Argument, CONFIG, PROGRESS, TRACE};
use crate::files::files_of;
use clap::ArgMatches;

/// What the help says of `stats`.
pub const ABOUT: &str = "Judges a trace, and prints the statistics of one that is legal";

/// What the help says after the arguments.
pub const HELP: &str = "\
Answers:
  bank=0 hits=9 primary=1 merges=0 stalls=0 peak=1   for each bank
  port=0 unanswered=0                                for each port

The lines of the banks come first. They count, in level one,

  hits        requests that found their block there
  primary     misses that started a fetch of their block
  merges      misses that joined a fetch of their block, each recorded
              beside the first
  stalls      misses that found no room in the registers and waited
  peak        the greatest number of registers that were held at once

and those of the ports

  unanswered  tags whose last request has no reply in the trace

Where check says no or refused, stats prints that line; see score help
check. --progress is that of check.

Exit status:
  0  the trace is legal
  1  no
  2  refused

Examples:
  score stats small.toml run.lfts
  simulate | score stats small.toml -";

pub const ARGUMENTS: &[Argument] = &[CONFIG, TRACE, PROGRESS];

pub fn request<'a>(matches: &ArgMatches<'a>) -> Result<Request<'a>, &'static str> {
    let (config, trace) = files_of(matches)?;
    Ok(Request::Stats {
        config,
        trace,
        progress: matches.get_flag("progress"),
    })
}
