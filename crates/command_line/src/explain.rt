//! `score explain CONFIG TRACE`.

use crate::Request;
use crate::argument::{Argument, COMPLETE, CONFIG, MAP, PROGRESS, TRACE, Takes};
use crate::files::{LEFT_OUT, files_of};
use clap::ArgMatches;
use clap::parser::ValueSource;

/// What the help says of `explain`.
pub const ABOUT: &str = "Judges a trace, and prints why the answer is what it is";

/// What the help says after the arguments.
pub const HELP: &str = "\
Answers:
  no bank=0 number=5 rule=ReplyData

  reply port=0 bank=0 number=5 tag=0 size=1 bytes=01 ; at 112
    ReplyData asks that the reply has the bytes that its request found
    expected bytes=00
    found    bytes=01, first different at byte 0, address 0x0

  block=0 address=0x0 before it:
    level-one line        dirty mask=0x0
    level-two line        dirty mask=0x0
    level-one register    none
    level-two register    none
    asked of level two    no
    supplied by level two no
    memory                bytes=0000000000000000

  before it:
  load port=0 bank=0 number=0 tag=0 size=1 address=0x0 ; at 16

The first line is that of check; see score help check. The rest comes after
an empty line. Each record is printed as dump prints it, with the offset of
its first byte in the trace.

If a record of a port or of a bank breaks a rule, explain prints the record,
what the rule asks, the state of the blocks that a bank's record names, the
records that this state comes from, and the last records before it that
matter, the latest last. For ReplyData, FillData and EvictData it prints the
expected bytes and those that were found; bytes of a fill that waiting stores
write are not judged, and are printed as they were found. For EvictMask it
prints the masks.

The state of a block is that before the record: the line of each level with
its dirty masks, whether a register of each level holds the block, the bytes
that its waiting stores write, whether level one asks level two for it,
whether level two has supplied it and level one has not got it yet, and its
bytes in memory.

Before a record of a port, the records of its log matter. Before a record of
a bank, those of the bank that touch the same second-level block do, from all
logs, in the order of their numbers. A record that names a port and a tag
touches the block of the port's last request with that tag.

If a number is missing or double, explain prints the records beside it, and
if logs wait for one another, which record waits for which. If something else
broke earlier in the trace, it prints that last, in the same way, with the
record upon which it broke.

With --first, explain tells what broke first in the trace, and nothing else.
The first line is then that of watch; see score help watch:

  broken bank=0 number=5 rule=ReplyData upon log=0 event=1 at=112

Unless --events says otherwise, it then prints at most 5 records before it.

For a yes it prints what the trace used at most of what the configuration
has. A configuration that is larger than the design hides faults. With
--complete, each request of a legal trace must also have a reply, as check
asks it. The first one without is printed instead, and the oldest one where
that is another: it stands first in the file. Then come the last records of
the bank of the oldest at its block, and what that bank has at the end, so
that what it waits for can be seen:

  no incomplete port=0 tag=0

  load port=0 bank=0 number=0 tag=0 size=1 address=0x0 ; at 16
    the trace ends without a reply to this request

  the last records of its bank at its block:
  load port=0 bank=0 number=0 tag=0 size=1 address=0x0 ; at 16
  primary bank=0 number=1 port=0 tag=0 register=0 ; at 36

  the registers of level one that are held at the end:
  primary bank=0 number=1 port=0 tag=0 register=0 ; at 36
    of load port=0 bank=0 number=0 tag=0 size=1 address=0x0 ; at 16

and so on for the registers of level two, the blocks that are asked for, those
that are supplied, and the last events.

For bytes that are not a trace it prints the part that is wrong, its field,
the value and what is allowed, and then what broke first in the records before
it; for a trace of another hierarchy, each number that differs; for a
configuration that is refused, what the key may have, and its line.

With --map FILE each record is printed with its time. FILE is the time map
that a recorder wrote beside the trace. It has a line for each record: its
log (the ports' logs come first), its place in that log from 0 on, and its
time.

  0 0 45
  2 0 55

A map that cannot be read is refused before the trace is read:

  refused read map
  refused map NotText
  refused map line=2 expected the number of a log, 0 to 255

With --json the answer is one object; docs/JSON.md lists its fields.
--progress is that of check.

Exit status:
  0  yes
  1  no
  2  refused

Examples:
  score explain small.toml run.lfts
  score explain --events 40 small.toml run.lfts
  score explain --first small.toml run.lfts
  score explain --complete small.toml run.lfts
  score explain --map run.map small.toml run.lfts
  score explain --json small.toml run.lfts | jq .fault.record
  zstd -dc run.lfts.zst | score explain small.toml -";

/// What `explain` is asked for beside the verdict.
#[derive(Clone, Copy)]
pub struct ExplainOptions<'a> {
    /// How many records before one that breaks a rule are told.
    pub events: u16,
    /// The file in which a recorder wrote the time of each record.
    pub map: Option<&'a str>,
    /// Each request has to have a reply.
    pub complete: bool,
    /// What broke first is told in the place of the fault that `check` names.
    pub first: bool,
    /// The answer is printed as JSON.
    pub json: bool,
    /// Standard error shows how far the trace is read.
    pub progress: bool,
}

pub const ARGUMENTS: &[Argument] = &[
    CONFIG,
    TRACE,
    Argument {
        name: "events",
        takes: Takes::U16,
        value: "N",
        default: "15",
        help: "How many records before it are printed at most",
    },
    MAP,
    COMPLETE,
    Argument {
        name: "first",
        takes: Takes::Nothing,
        value: "",
        default: "",
        help: "Tells what broke first in the trace alone",
    },
    Argument {
        name: "json",
        takes: Takes::Nothing,
        value: "",
        default: "",
        help: "Prints the answer as JSON",
    },
    PROGRESS,
];

/// With --first so many records before it are told, unless the words say how many.
const FEW: u16 = 5;

/// How many records before one that breaks a rule are told.
fn events_of(matches: &ArgMatches<'_>, first: bool) -> Result<u16, &'static str> {
    match matches.value_source("events") {
        Some(ValueSource::DefaultValue) if first => Ok(FEW),
        _ => matches.get_one::<u16>("events").ok_or(LEFT_OUT),
    }
}

pub fn request<'a>(matches: &ArgMatches<'a>) -> Result<Request<'a>, &'static str> {
    let (config, trace) = files_of(matches)?;
    let first = matches.get_flag("first");
    Ok(Request::Explain {
        config,
        trace,
        options: ExplainOptions {
            events: events_of(matches, first)?,
            map: matches.get_str("map"),
            complete: matches.get_flag("complete"),
            first,
            json: matches.get_flag("json"),
            progress: matches.get_flag("progress"),
        },
    })
}
