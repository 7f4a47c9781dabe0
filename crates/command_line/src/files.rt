//! The files that a command line names.

use clap::ArgMatches;

/// The word that stands for standard input where a file is read, and for standard output where one is written.
pub const STANDARD: &str = "-";

/// What is told where clap answers no value for an argument that each command line has.
pub const LEFT_OUT: &str = "an argument is left out";

const READ_TWICE: &str = "standard input is read once, so CONFIG and TRACE are not both -";

const TRACE_TWICE: &str = "standard input is read once, so only one TRACE is -";

/// What is told where standard input would be read twice.
pub fn twice_standard(config: &str, traces: &[&str]) -> Option<&'static str> {
    let mut is_read = false;
    for trace in traces {
        if *trace == STANDARD {
            if config == STANDARD {
                return Some(READ_TWICE);
            }
            if is_read {
                return Some(TRACE_TWICE);
            }
            is_read = true;
        }
    }
    None
}

/// The configuration and the trace.
pub fn files_of<'a>(matches: &ArgMatches<'a>) -> Result<(&'a str, &'a str), &'static str> {
    let config = matches.get_str("CONFIG").ok_or(LEFT_OUT)?;
    let trace = matches.get_str("TRACE").ok_or(LEFT_OUT)?;
    match twice_standard(config, &[trace]) {
        Some(why) => Err(why),
        None => Ok((config, trace)),
    }
}
