//! `score dump TRACE`.

use crate::Request;
use crate::argument::{Argument, TRACE, Takes};
use crate::files::LEFT_OUT;
use clap::ArgMatches;

/// What the help says of `dump`.
pub const ABOUT: &str = "Prints a trace as text while it is read, a line for each record";

/// What the help says after the arguments.
pub const HELP: &str = "\
Answers:
  lfts version=1 ports=1 banks=1 block=8 factor=1 memory=1 ; at 0
  memory block=3 bytes=0102030405060708 ; at 16
  load port=0 bank=0 number=0 tag=0 size=8 address=0x0 ; at 28
  primary bank=0 number=1 port=0 tag=0 register=0 ; at 48
  end count=2 ; at 60

A line for the header, for each memory record, for each event record and
for the end, with the offset of its first byte. Numbers are decimal,
addresses and masks hexadecimal, and bytes stand in the order of the trace.

With an option, only the lines of the records that meet all options are
printed, with those of the header and of the end. The line of the header
ends with the word part then, and assemble refuses such a text. With --last,
nothing is printed before the trace ends.

If the bytes are not a trace, the last line says so, after what was read:
  refused format Truncated at=48
  refused read trace
  refused memory

Exit status:
  0  the whole trace is printed, or its reader wants no more
  2  refused

Examples:
  score dump run.lfts
  score dump --bank 0 --block 7 run.lfts
  score dump --from 4096 run.lfts | head -20
  score dump --last 10 run.lfts
  simulate | score dump -";

/// Which records are printed: those that meet all that is given.
#[derive(Clone, Copy)]
pub struct DumpOptions {
    /// The records that name this port.
    pub port: Option<u8>,
    /// The records that name this bank.
    pub bank: Option<u8>,
    /// The records that name this block or an address in it.
    pub block: Option<u32>,
    /// The records that name this tag.
    pub tag: Option<u8>,
    /// The records that begin at this offset or later.
    pub from: Option<u64>,
    /// The last so many of those.
    pub last: Option<u32>,
}

/// There are at most so many ports, and at most so many banks.
const MOST: u8 = 16;

const NO_PORT: &str = "ports are numbered from 0 to 15";

const NO_BANK: &str = "banks are numbered from 0 to 15";

/// Whether there can be a port or a bank of this number.
fn is_there(number: Option<u8>) -> bool {
    match number {
        Some(number) => number < MOST,
        None => true,
    }
}

pub const ARGUMENTS: &[Argument] = &[
    TRACE,
    Argument {
        name: "port",
        takes: Takes::U8,
        value: "P",
        default: "",
        help: "Only records that name this port",
    },
    Argument {
        name: "bank",
        takes: Takes::U8,
        value: "B",
        default: "",
        help: "Only records that name this bank",
    },
    Argument {
        name: "block",
        takes: Takes::U32,
        value: "X",
        default: "",
        help: "Only records that name this block or an address in it",
    },
    Argument {
        name: "tag",
        takes: Takes::U8,
        value: "T",
        default: "",
        help: "Only records that name this tag",
    },
    Argument {
        name: "from",
        takes: Takes::U64,
        value: "OFFSET",
        default: "",
        help: "Only records from this offset on",
    },
    Argument {
        name: "last",
        takes: Takes::U32,
        value: "N",
        default: "",
        help: "Only the last N of these records",
    },
];

pub fn request<'a>(matches: &ArgMatches<'a>) -> Result<Request<'a>, &'static str> {
    let port = matches.get_one::<u8>("port");
    let bank = matches.get_one::<u8>("bank");
    if !is_there(port) {
        return Err(NO_PORT);
    }
    if !is_there(bank) {
        return Err(NO_BANK);
    }
    Ok(Request::Dump {
        trace: matches.get_str("TRACE").ok_or(LEFT_OUT)?,
        options: DumpOptions {
            port,
            bank,
            block: matches.get_one::<u32>("block"),
            tag: matches.get_one::<u8>("tag"),
            from: matches.get_one::<u64>("from"),
            last: matches.get_one::<u32>("last"),
        },
    })
}
