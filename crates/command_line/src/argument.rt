//! The arguments of a command, as tables of constants.

use clap::{Arg, ArgAction, Command, value_parser};
use std::alloc::{AllocError, Global};

/// What an argument takes.
#[derive(Clone, Copy)]
pub enum Takes {
    /// A word in its place, which must be there.
    Word,
    /// Words in their place, of which one must be there.
    Words,
    /// Nothing: it is a flag.
    Nothing,
    /// A text after its name.
    Text,
    /// A number after its name.
    U8,
    U16,
    U32,
    U64,
}

/// An argument of a command.
#[derive(Clone, Copy)]
pub struct Argument {
    pub name: &'static str,
    pub takes: Takes,
    /// What the help calls its value, where one stands after its name.
    pub value: &'static str,
    /// The value where it is left out, or the empty text.
    pub default: &'static str,
    pub help: &'static str,
}

pub const CONFIG: Argument = Argument {
    name: "CONFIG",
    takes: Takes::Word,
    value: "",
    default: "",
    help: "The configuration of the hierarchy, or -",
};

pub const TRACE: Argument = Argument {
    name: "TRACE",
    takes: Takes::Word,
    value: "",
    default: "",
    help: "The recorded trace, or -",
};

pub const TRACES: Argument = Argument {
    name: "TRACE",
    takes: Takes::Words,
    value: "",
    default: "",
    help: "The recorded trace, or -; there may be several",
};

pub const OUT: Argument = Argument {
    name: "OUT",
    takes: Takes::Word,
    value: "",
    default: "",
    help: "The file to write, or -",
};

pub const PROGRESS: Argument = Argument {
    name: "progress",
    takes: Takes::Nothing,
    value: "",
    default: "",
    help: "Shows on standard error how far it is",
};

pub const COMPLETE: Argument = Argument {
    name: "complete",
    takes: Takes::Nothing,
    value: "",
    default: "",
    help: "Also asks for a reply to each request",
};

pub const MAP: Argument = Argument {
    name: "map",
    takes: Takes::Text,
    value: "FILE",
    default: "",
    help: "The times of the records",
};

/// An option with a value.
fn valued<'a>(arg: Arg<'a>, argument: &'a Argument) -> Arg<'a> {
    let arg = arg.long(argument.name).value_name(argument.value);
    if argument.default.is_empty() {
        arg
    } else {
        arg.default_value(argument.default)
    }
}

fn arg_of<'a>(alloc: Global, argument: &'a Argument) -> Arg<'a> {
    let arg = Arg::new(alloc, argument.name).help(argument.help);
    match argument.takes {
        Takes::Word => arg.required(true),
        Takes::Words => arg.required(true).num_args(1..),
        Takes::Nothing => arg.long(argument.name).action(ArgAction::SetTrue),
        Takes::Text => valued(arg, argument),
        Takes::U8 => valued(arg.value_parser(value_parser!(u8)), argument),
        Takes::U16 => valued(arg.value_parser(value_parser!(u16)), argument),
        Takes::U32 => valued(arg.value_parser(value_parser!(u32)), argument),
        Takes::U64 => valued(arg.value_parser(value_parser!(u64)), argument),
    }
}

/// The command with these arguments.
pub fn with_arguments<'a>(
    alloc: Global,
    command: Command<'a>,
    arguments: &'a [Argument],
) -> Result<Command<'a>, AllocError> {
    let mut command = command;
    for argument in arguments {
        command = command.arg(arg_of(alloc, argument))?;
    }
    Ok(command)
}
