//! `score watch CONFIG TRACE`.

use crate::Request;
use crate::argument::{Argument, CONFIG, TRACE};
use crate::files::files_of;
use clap::ArgMatches;

/// What the help says of `watch`.
pub const ABOUT: &str = "Judges a trace while it comes, and stops at the first fault that is final";

/// What the help says after the arguments.
pub const HELP: &str = "\
Answers:
  broken bank=0 number=5 rule=ReplyData upon log=0 event=1 at=104
  broken port=0 event=1 rule=TagBusy upon log=0 event=1 at=36
  broken numbering bank=0 double=2 upon log=1 event=7 at=128
  broken header Ports

The first three name the fault as check does, and the event of the trace
upon which a port or a bank broke first: here the one at place 1 of log 0,
which begins at byte 104 of the trace. The last one says that the trace is
one of another hierarchy. No bytes that follow can make such a trace legal.

The line is printed as soon as that record or header is read, and watch
ends. That closes the pipe, which ends a simulation that writes its trace
into it. TRACE may be a FIFO too.

If nothing broke before the end of the trace, the line is that of check;
see score help check.

Exit status:
  0  yes
  1  no, or something broke
  2  refused, or the header is one of another hierarchy

Examples:
  score watch small.toml run.lfts
  simulate | score watch small.toml -";

pub const ARGUMENTS: &[Argument] = &[CONFIG, TRACE];

pub fn request<'a>(matches: &ArgMatches<'a>) -> Result<Request<'a>, &'static str> {
    let (config, trace) = files_of(matches)?;
    Ok(Request::Watch { config, trace })
}
