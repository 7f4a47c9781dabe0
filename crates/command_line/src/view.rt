//! `score view CONFIG TRACE OUT`.

use crate::Request;
use crate::argument::{Argument, COMPLETE, CONFIG, MAP, OUT, TRACE, Takes};
use crate::files::{LEFT_OUT, files_of};
use clap::ArgMatches;

/// What the help says of `view`.
pub const ABOUT: &str = "Writes a waveform of a trace, which GTKWave shows";

/// What the help says after the arguments.
pub const HELP: &str = "\
The line is that of check; see score help check. For a yes or a no, OUT is
written, in the text form VCD. A second file makes GTKWave show all signals:
its name is that of OUT with .gtkw instead of .vcd. With --complete, each
request of a legal trace must also have a reply, as check --complete asks.

For a yes, the records stand in an order of all events that is a legal run:
the order of the yes, see docs/RULES.md. For a no, each log is in its own
order, and the records of each bank are in the order of their numbers. They go
up to the record that breaks a rule, or as far as they can. What broke first,
see score help watch, is in the waveform too: if it comes later, they go on up
to it.

The record at place N of the order, from 0, is at N nanoseconds. A port
has its record (event), with tag and address, how many of its requests have no
reply (outstanding), and whether each tag is busy. A bank has its record, its
number, its block, the port and the tag of its request, its register, how many
registers of each level are held, how many blocks level one asks level two for
(asked), how many level two has supplied that are not filled in (supplied),
how many lines of each level are dirty, and for each of the first 64 registers
of a level the block that it holds (z: none) and how many targets wait in it.
If a record of a port or of a bank breaks a rule, fault rises at that record,
and rule is the name of the rule. If the records end before it, rule is
no_next_record from the last one on. first_fault and first_rule say the same of
what broke first. GTKWave has its marker at fault, and marker A at first_fault.

Without --from, the waveform of a no begins 200 records before the first one
that is marked. It ends 32 nanoseconds after the last one, so that GTKWave can
open there. That of a yes is of the whole trace.

With --map FILE, each record is at its time: the number in front of the time is
in nanoseconds, and the order is by these numbers as far as it can be. A record
whose time is before that of the record before it, or has no number, is two
picoseconds behind that record. Words stay until the next one of the port or
bank. time is the time of each record, and
the empty text for a record that FILE does not name. FILE is the time map that
a recorder wrote beside the trace; see score help explain. GTKWave shows time
first.

A TRACE that is a pipe or a FIFO is kept in memory. The order is kept too, a
byte for each record, and the records that stand in TRACE before their turn.
OUT is written beside its place first and then renamed. If OUT is -, it is
standard output, the line goes to standard error, and there is no second file.
If standard error is a terminal, it shows how far a long TRACE is read.

Answers:
  no bank=0 number=5 rule=ReplyData  what check says; OUT is written
  no incomplete port=0 tag=3         with --complete; OUT is written
  refused write                      OUT cannot be written
  refused read map                   FILE cannot be read

Exit status:
  0  yes
  1  no
  2  refused

Examples:
  score view small.toml run.lfts run.vcd && gtkwave run.vcd run.gtkw
  score view --from 0 --to 999 small.toml run.lfts run.vcd
  score view --map run.map small.toml run.lfts run.vcd
  score view small.toml run.lfts - | vcd2fst - run.fst";

/// The places of the first and the last record that are asked for.
#[derive(Clone, Copy)]
pub struct Window {
    pub from: Option<u64>,
    pub to: Option<u64>,
}

/// What `view` is asked for.
#[derive(Clone, Copy)]
pub struct ViewOptions<'a> {
    pub window: Window,
    /// The file in which a recorder wrote the time of each record.
    pub map: Option<&'a str>,
    /// Each request of a legal trace must have a reply.
    pub complete: bool,
}

const NO_WINDOW: &str = "the first record to show stands behind the last one";

impl Window {
    /// Whether no place can be in it.
    fn is_empty(self) -> bool {
        match (self.from, self.to) {
            (Some(from), Some(to)) => from > to,
            _ => false,
        }
    }
}

pub const ARGUMENTS: &[Argument] = &[
    CONFIG,
    TRACE,
    OUT,
    Argument {
        name: "from",
        takes: Takes::U64,
        value: "N",
        default: "",
        help: "The place of the first record to show",
    },
    Argument {
        name: "to",
        takes: Takes::U64,
        value: "N",
        default: "",
        help: "The place of the last record to show",
    },
    MAP,
    COMPLETE,
];

pub fn request<'a>(matches: &ArgMatches<'a>) -> Result<Request<'a>, &'static str> {
    let (config, trace) = files_of(matches)?;
    let window = Window {
        from: matches.get_one::<u64>("from"),
        to: matches.get_one::<u64>("to"),
    };
    if window.is_empty() {
        return Err(NO_WINDOW);
    }
    Ok(Request::View {
        config,
        trace,
        out: matches.get_str("OUT").ok_or(LEFT_OUT)?,
        options: ViewOptions {
            window,
            map: matches.get_str("map"),
            complete: matches.get_flag("complete"),
        },
    })
}
