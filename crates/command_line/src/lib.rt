//! The command line of `score`: its commands with their words and their help, and what the words ask for.
//!
//! It stands on clap alone, so that it is proved beside the crates that judge. A file for each command has its
//! help, its arguments, and its request.
#![tactic(auto)]

mod argument;
mod assemble;
mod check;
mod commands;
mod cover;
mod demo;
mod dump;
mod explain;
mod files;
mod help;
mod request;
mod shrink;
mod stats;
mod usage;
mod view;
mod watch;

pub use check::CheckOptions;
use clap::error::ErrorKind;
use clap::{ArgMatches, Error};
use commands::program;
pub use dump::DumpOptions;
pub use explain::ExplainOptions;
pub use files::STANDARD;
pub use request::Request;
pub use shrink::ShrinkOptions;
use std::alloc::Global;
pub use usage::UsageFault;
pub use view::{ViewOptions, Window};

/// Why there is no command.
#[derive(Drop)]
pub enum CommandFault {
    /// The words are none of a command.
    Usage(UsageFault),
    /// A growth was refused.
    Memory,
    /// The help or the version was asked for, which this prints.
    Help(Error),
}

const NO_COMMAND: &str = "there is no command";

/// Each word is right, and the request is not.
fn refused(why: &'static str) -> CommandFault {
    CommandFault::Usage(UsageFault::Request(why))
}

fn fault_of(error: Error) -> CommandFault {
    match error.kind() {
        ErrorKind::OutOfMemory => CommandFault::Memory,
        ErrorKind::DisplayHelp | ErrorKind::DisplayVersion => CommandFault::Help(error),
        _ => CommandFault::Usage(UsageFault::Words(error)),
    }
}

/// What the command of this name asks for.
fn request_of<'a>(
    alloc: Global,
    name: &str,
    matches: &ArgMatches<'a>,
) -> Result<Request<'a>, CommandFault> {
    let found = match name {
        "check" => return check::request(alloc, matches),
        "stats" => stats::request(matches),
        "explain" => explain::request(matches),
        "cover" => cover::request(matches),
        "demo" => demo::request(matches),
        "watch" => watch::request(matches),
        "dump" => dump::request(matches),
        "assemble" => assemble::request(matches),
        "shrink" => shrink::request(matches),
        "view" => view::request(matches),
        _ => Err(NO_COMMAND),
    };
    found.map_err(refused)
}

/// What the words ask for, the program's own name first.
pub fn asked<'a>(alloc: Global, words: &'a [String]) -> Result<Request<'a>, CommandFault> {
    let Ok(command) = program(alloc) else {
        return Err(CommandFault::Memory);
    };
    let matches = match command.try_get_matches_from(words) {
        Ok(matches) => matches,
        Err(error) => return Err(fault_of(error)),
    };
    match matches.subcommand() {
        Some((name, inner)) => request_of(alloc, name, inner),
        None => Err(refused(NO_COMMAND)),
    }
}
