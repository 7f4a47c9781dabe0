//! `score check CONFIG TRACE..`.

use crate::argument::{Argument, COMPLETE, CONFIG, PROGRESS, TRACES, Takes};
use crate::files::{LEFT_OUT, twice_standard};
use crate::{CommandFault, Request, refused};
use clap::ArgMatches;
use std::alloc::Global;

/// What the help says of `check`.
pub const ABOUT: &str = "Judges a trace for the hierarchy of a configuration, and prints one line";

/// What the help says after the arguments.
pub const HELP: &str = "\
Answers:
  yes events=6                       some order of all events is a legal run
  no port=0 event=1 rule=TagBusy     the port's event of this place breaks
                                     the rule
  no bank=0 number=5 rule=ReplyData  the bank's event of this number breaks
                                     the rule
  no numbering bank=0 missing=2      no event of the bank has this number
  no numbering bank=0 double=2       two events of the bank have it
  no cycle logs=0,1                  the logs wait for one another
  no incomplete port=0 tag=3         with --complete alone: the tag's last
                                     request has no reply in the trace
  refused format Truncated at=16     the record or header at byte 16 is wrong
  refused header Ports               the trace is one of another hierarchy
  refused config Missing tags        the configuration is not valid
  refused read trace                 the file cannot be read
  refused read config                the file cannot be read, or has more
                                     than 1 MiB
  refused workers 17                 there are 1 to 16
  refused usage                      the command line is wrong
  refused memory                     there is not enough memory
  refused read list                  with --list alone: it cannot be read

Places, numbers, ports, banks and logs count from 0. docs/RULES.md has
each rule, docs/GUIDE.md what usually breaks it.

A trace may end anywhere, so the trace of a design that hangs can be legal.
With --complete, each request of a legal trace must also have a reply. The
line names the lowest port and its lowest tag without one. One thread judges
the trace then.

If there are several traces, each is judged, and each answer has the path of
its trace and a colon before it. Nothing is told of progress then. The exit
status is the greatest of all. One of them may be -.

With --list, TRACE is the path of a text with the path of a trace in each
line. These traces are judged in the same way, also if there is only one.

With --progress, standard error gets a line for each twentieth of a file,
or for each 64 MiB of a TRACE whose size is not known. If it is a terminal,
that is one line, which is written over and cleared before the answer.

If standard error is a terminal and the answer is refused, a line there says
what was wrong. Without --progress nothing else is written there.

Exit status:
  0  yes
  1  no
  2  refused

Examples:
  score check small.toml run.lfts
  score check --complete small.toml run.lfts
  score check --workers 4 --progress small.toml run.lfts
  score check small.toml *.lfts
  printf '%s\\n' *.lfts | score check --list small.toml -
  zstd -dc run.lfts.zst | score check small.toml -";

/// How a trace is judged.
#[derive(Clone, Copy)]
pub struct CheckOptions {
    /// So many threads judge it.
    pub workers: u16,
    /// Each request has to have a reply.
    pub complete: bool,
    /// What is named as the trace is a list of traces.
    pub list: bool,
    /// Standard error is told how far it is.
    pub progress: bool,
}

pub const ARGUMENTS: &[Argument] = &[
    CONFIG,
    TRACES,
    Argument {
        name: "workers",
        takes: Takes::U16,
        value: "N",
        default: "1",
        help: "How many threads judge the trace, 1 to 16",
    },
    COMPLETE,
    Argument {
        name: "list",
        takes: Takes::Nothing,
        value: "",
        default: "",
        help: "TRACE is a list of traces, a path in each line",
    },
    PROGRESS,
];

const ONE_LIST: &str = "with --list there is one TRACE, which is the list";

fn options_of(matches: &ArgMatches<'_>) -> Option<CheckOptions> {
    Some(CheckOptions {
        workers: matches.get_one::<u16>("workers")?,
        complete: matches.get_flag("complete"),
        list: matches.get_flag("list"),
        progress: matches.get_flag("progress"),
    })
}

/// Why these words are no request.
fn fault_in(config: &str, traces: &[&str], list: bool) -> Option<&'static str> {
    if list && traces.len() > 1 {
        return Some(ONE_LIST);
    }
    twice_standard(config, traces)
}

pub fn request<'a>(alloc: Global, matches: &ArgMatches<'a>) -> Result<Request<'a>, CommandFault> {
    let (Some(config), Some(traces), Some(options)) = (
        matches.get_str("CONFIG"),
        matches.get_strs("TRACE"),
        options_of(matches),
    ) else {
        return Err(refused(LEFT_OUT));
    };
    if let Some(why) = fault_in(config, traces, options.list) {
        return Err(refused(why));
    }
    match traces.to_vec(alloc) {
        Ok(traces) => Ok(Request::Check {
            config,
            traces,
            options,
        }),
        Err(_) => Err(CommandFault::Memory),
    }
}
