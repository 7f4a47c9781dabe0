//! `score cover CONFIG TRACE`.

use crate::Request;
use crate::argument::{Argument, CONFIG, PROGRESS, TRACE, Takes};
use crate::files::{STANDARD, files_of};
use clap::ArgMatches;

/// What the help says of `cover`.
pub const ABOUT: &str = "Judges a trace, and prints the coverage of one that is legal";

/// What the help says after the arguments.
pub const HELP: &str = "\
Answers:
  bank=0 stall=0     a point that was not reached
  bank=0 merge=3     a point that was reached, and how often
  covered 27 of 40   how many of the points were reached
  refused write      with --dat alone: FILE cannot be written

The points that were not reached come first. A bank has these points, in
each level:

  hit primary merge stall fill1 evict1                  level one
  second_hit second_primary second_merge second_stall   level two
  fill2 evict2                                          level two
  evict1_clean evict1_part evict1_whole   evictions of level one by how
                                          much of the line is dirty
  evict2_dirty_N    evictions of level two with N dirty blocks
  hit_under_miss    hits while a register of level one is held
  registers_N       misses that took a free register of level one, after
                    which N are held
  stall_no_register stall_no_entry stall_field    stalls by their cause
  second_stall_no_register second_stall_no_entry  the same of level two
  targets_N second_targets_N    merges after which N misses wait
  field_N second_field_N        misses for field N of the block, a word or
                                a block of level one
  merge_port_N                  merges of port N
  load_behind_load store_behind_load      merges by the kind of their
  load_behind_store store_behind_store    request and of the one before
  refetched second_refetched    primary misses of a block that was written
                                back
  fill1_out_of_order            blocks before one asked for earlier
  fill1_over_stores             blocks for which a store waits
  evict1_under_supply evict2_under_supply evict1_of_other_set
  evict2_of_same_set            evictions while level two has supplied a
                                block that level one has not got, of
                                another set or of the same
  evict2_beside_pinned evict2_last_unpinned
  second_beside_pinned second_all_pinned
                                evictions from level two, and misses there,
                                while lines of the set are pinned: those of
                                blocks that registers of level one hold

and a port these:

  load_N store_N    loads and stores of N bytes
  reply fence       replies and fences

Points that the configuration cannot reach are left out.

With --dat, the coverage of a legal trace is also written to FILE, as a
coverage.dat of Verilator: verilator_coverage adds it to those of other
traces and of the design. TRACE is then kept in memory, and has less than
4 GiB. FILE is written beside its place first and then renamed, and only
then come the lines. A FILE of - is refused.

If check says no or refused, cover prints that line, and writes no FILE; see
score help check. --progress is that of check.

Exit status:
  0  the trace is legal
  1  no
  2  refused

Examples:
  score cover small.toml run.lfts
  score cover --dat run.dat small.toml run.lfts
  simulate | score cover small.toml -";

pub const ARGUMENTS: &[Argument] = &[
    CONFIG,
    TRACE,
    Argument {
        name: "dat",
        takes: Takes::Text,
        value: "FILE",
        default: "",
        help: "Also writes Verilator's coverage.dat",
    },
    PROGRESS,
];

/// The lines go to standard output, so the other file does not.
const BOTH_OUT: &str = "the lines go to standard output, so FILE is not -";

pub fn request<'a>(matches: &ArgMatches<'a>) -> Result<Request<'a>, &'static str> {
    let (config, trace) = files_of(matches)?;
    let dat = matches.get_str("dat");
    if dat == Some(STANDARD) {
        return Err(BOTH_OUT);
    }
    Ok(Request::Cover {
        config,
        trace,
        dat,
        progress: matches.get_flag("progress"),
    })
}
