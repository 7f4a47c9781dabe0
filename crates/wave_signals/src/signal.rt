//! The signals of a wave.

ghost use Rattle.std.specs.Prelude.{◌≡◌, Some};
ghost use Rattle.wave_signals.specs.Signals.{block_letter, target_letter, identifier};

use crate::registers::Level;
use std::fmt;

/// Which fault of a trace.
#[derive(Clone, Copy, PartialEq, Eq)]
pub enum Named {
    /// The one that the verdict names.
    ByVerdict,
    /// What broke first.
    First,
}

/// A signal of a wave. Its text is its identifier in the file.
#[derive(Clone, Copy, PartialEq, Eq)]
pub enum Signal {
    /// The record that is at fault has come.
    Fault {
        named: Named,
    },
    /// The rule that it breaks, or why there is none.
    Rule {
        named: Named,
    },
    /// The time of the record.
    Time,
    /// The word of the port's record.
    PortEvent {
        port: u8,
    },
    /// The tag of the port's record.
    PortTag {
        port: u8,
    },
    /// The address of the port's issue.
    Address {
        port: u8,
    },
    /// How many tags of the port are busy.
    Outstanding {
        port: u8,
    },
    /// The tag of the port is busy.
    Busy {
        port: u8,
        tag: u16,
    },
    /// The word of the bank's record.
    BankEvent {
        bank: u8,
    },
    /// The number of the bank's record.
    Number {
        bank: u8,
    },
    /// The port whose request the bank's record names.
    Requester {
        bank: u8,
    },
    /// The tag of that request.
    BankTag {
        bank: u8,
    },
    /// The block that the bank's record names.
    Block {
        bank: u8,
    },
    /// The register that it names.
    Register {
        bank: u8,
    },
    /// How many registers of the bank's level are held.
    InUse {
        level: Level,
        bank: u8,
    },
    /// How many blocks the bank's level one asks for.
    Asked {
        bank: u8,
    },
    /// How many blocks its level two has supplied.
    Supplied {
        bank: u8,
    },
    /// How many lines of the bank's level are dirty.
    Dirty {
        level: Level,
        bank: u8,
    },
    /// The block that a register of the bank's level holds.
    HeldBlock {
        level: Level,
        bank: u8,
        register: u16,
    },
    /// How many targets wait in it.
    Targets {
        level: Level,
        bank: u8,
        register: u16,
    },
}

/// The letter of the blocks that the registers of a level hold.
fn block_letter(level: Level) -> &'static str
    ensures { result.now ≡ block_letter level }
{
    match level {
        Level::One => "h",
        Level::Two => "k",
    }
}

/// The letter of the targets that wait in them.
fn target_letter(level: Level) -> &'static str
    ensures { result.now ≡ target_letter level }
{
    match level {
        Level::One => "t",
        Level::Two => "u",
    }
}

impl fmt::Display for Signal {
    ghost output = { λ signal. Some (identifier signal) };

    fn fmt<W: fmt::Write>(&self, f: &mut fmt::Formatter<W>) -> fmt::Result {
        match self {
            Signal::Fault {
                named: Named::ByVerdict,
            } => write!(f, "f"),
            Signal::Fault {
                named: Named::First,
            } => write!(f, "ff"),
            Signal::Rule {
                named: Named::ByVerdict,
            } => write!(f, "r"),
            Signal::Rule {
                named: Named::First,
            } => write!(f, "fr"),
            Signal::Time => write!(f, "t"),
            Signal::PortEvent { port } => write!(f, "p{port}e"),
            Signal::PortTag { port } => write!(f, "p{port}i"),
            Signal::Address { port } => write!(f, "p{port}a"),
            Signal::Outstanding { port } => write!(f, "p{port}o"),
            Signal::Busy { port, tag } => write!(f, "p{port}t{tag}"),
            Signal::BankEvent { bank } => write!(f, "b{bank}e"),
            Signal::Number { bank } => write!(f, "b{bank}n"),
            Signal::Requester { bank } => write!(f, "b{bank}p"),
            Signal::BankTag { bank } => write!(f, "b{bank}i"),
            Signal::Block { bank } => write!(f, "b{bank}b"),
            Signal::Register { bank } => write!(f, "b{bank}r"),
            Signal::InUse {
                level: Level::One,
                bank,
            } => write!(f, "b{bank}x"),
            Signal::InUse {
                level: Level::Two,
                bank,
            } => write!(f, "b{bank}y"),
            Signal::Asked { bank } => write!(f, "b{bank}q"),
            Signal::Supplied { bank } => write!(f, "b{bank}s"),
            Signal::Dirty {
                level: Level::One,
                bank,
            } => write!(f, "b{bank}d"),
            Signal::Dirty {
                level: Level::Two,
                bank,
            } => write!(f, "b{bank}w"),
            Signal::HeldBlock {
                level,
                bank,
                register,
            } => write!(f, "b{bank}{}{register}", block_letter(*level)),
            Signal::Targets {
                level,
                bank,
                register,
            } => write!(f, "b{bank}{}{register}", target_letter(*level)),
        }
    }
}
