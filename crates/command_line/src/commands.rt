//! The program and its commands, as clap knows them.

use crate::argument::with_arguments;
use crate::{assemble, check, cover, demo, dump, explain, help, shrink, stats, view, watch};
use clap::Command;
use std::alloc::{AllocError, Global};

/// What `--version` prints after the program's name: the version, and on a line of its own what `rt version`
/// prints of the kit that proved and built the program. It changes with the kit.
const VERSION: &str = "0.3.0\nrattle-kit-13f logic dac8208d650f15bf";

fn described<'a>(alloc: Global, name: &'a str, about: &'a str, help: &'a str) -> Command<'a> {
    Command::new(alloc, name).about(about).after_help(help)
}

fn check_command<'a>(alloc: Global) -> Result<Command<'a>, AllocError> {
    let command = described(alloc, "check", check::ABOUT, check::HELP);
    with_arguments(alloc, command, check::ARGUMENTS)
}

fn stats_command<'a>(alloc: Global) -> Result<Command<'a>, AllocError> {
    let command = described(alloc, "stats", stats::ABOUT, stats::HELP);
    with_arguments(alloc, command, stats::ARGUMENTS)
}

fn explain_command<'a>(alloc: Global) -> Result<Command<'a>, AllocError> {
    let command = described(alloc, "explain", explain::ABOUT, explain::HELP);
    with_arguments(alloc, command, explain::ARGUMENTS)
}

fn cover_command<'a>(alloc: Global) -> Result<Command<'a>, AllocError> {
    let command = described(alloc, "cover", cover::ABOUT, cover::HELP);
    with_arguments(alloc, command, cover::ARGUMENTS)
}

fn demo_command<'a>(alloc: Global) -> Result<Command<'a>, AllocError> {
    let command = described(alloc, "demo", demo::ABOUT, demo::HELP);
    with_arguments(alloc, command, demo::ARGUMENTS)
}

fn watch_command<'a>(alloc: Global) -> Result<Command<'a>, AllocError> {
    let command = described(alloc, "watch", watch::ABOUT, watch::HELP);
    with_arguments(alloc, command, watch::ARGUMENTS)
}

fn dump_command<'a>(alloc: Global) -> Result<Command<'a>, AllocError> {
    let command = described(alloc, "dump", dump::ABOUT, dump::HELP);
    with_arguments(alloc, command, dump::ARGUMENTS)
}

fn assemble_command<'a>(alloc: Global) -> Result<Command<'a>, AllocError> {
    let command = described(alloc, "assemble", assemble::ABOUT, assemble::HELP);
    with_arguments(alloc, command, assemble::ARGUMENTS)
}

fn shrink_command<'a>(alloc: Global) -> Result<Command<'a>, AllocError> {
    let command = described(alloc, "shrink", shrink::ABOUT, shrink::HELP);
    with_arguments(alloc, command, shrink::ARGUMENTS)
}

fn view_command<'a>(alloc: Global) -> Result<Command<'a>, AllocError> {
    let command = described(alloc, "view", view::ABOUT, view::HELP);
    with_arguments(alloc, command, view::ARGUMENTS)
}

/// How many commands there are.
const COMMANDS: u8 = 10;

/// The command at this place of the help.
fn command_at<'a>(alloc: Global, place: u8) -> Result<Command<'a>, AllocError> {
    match place {
        0 => check_command(alloc),
        1 => stats_command(alloc),
        2 => explain_command(alloc),
        3 => cover_command(alloc),
        4 => demo_command(alloc),
        5 => watch_command(alloc),
        6 => dump_command(alloc),
        7 => assemble_command(alloc),
        8 => shrink_command(alloc),
        _ => view_command(alloc),
    }
}

/// The program without its commands.
fn without_commands<'a>(alloc: Global) -> Result<Command<'a>, AllocError> {
    Ok(
        described(alloc, "score", help::ABOUT, help::HELP)
            .bin_name("score")?
            .version(VERSION)
            .subcommand_required(true),
    )
}

/// The program with its commands.
pub fn program<'a>(alloc: Global) -> Result<Command<'a>, AllocError> {
    let mut program = without_commands(alloc)?;
    for place in 0..COMMANDS {
        program = program.subcommand(command_at(alloc, place)?)?;
    }
    Ok(program)
}
