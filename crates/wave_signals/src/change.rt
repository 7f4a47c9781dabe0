//! The lines that give a signal a value.

ghost use Rattle.std.specs.Prelude.{◌≡◌, Some};
ghost use Rattle.wave_signals.specs.Signals.{bit_text, bit_change, number_change, absence_change, text_change};
ghost use Rattle.wave_signals.specs.Signals.{busy_change};
ghost use Rattle.wave_signals.specs.Signals.{held_change, free_change, freed_change};

use crate::each::Numbered;
use crate::registers::{HeldRegister, Level};
use crate::signal::Signal;
use std::fmt;

fn bit_text(up: bool) -> &'static str
    ensures { result.now ≡ bit_text up }
{
    if up { "1" } else { "0" }
}

/// A signal of one bit is 1 or 0 from now on.
#[derive(Clone, Copy)]
pub struct BitChange {
    pub up: bool,
    pub signal: Signal,
}

impl fmt::Display for BitChange {
    ghost output = { λ change. Some (bit_change change.up change.signal) };

    fn fmt<W: fmt::Write>(&self, f: &mut fmt::Formatter<W>) -> fmt::Result {
        let signal = self.signal;
        let bit = bit_text(self.up);
        write!(f, "{bit}{signal}\n")
    }
}

/// A signal is this number from now on.
#[derive(Clone, Copy)]
pub struct NumberChange {
    pub value: u64,
    pub signal: Signal,
}

impl NumberChange {
    pub fn new(value: u64, signal: Signal) -> NumberChange
        ensures { result ≡ record { value = value; signal = signal } }
    {
        NumberChange { value, signal }
    }
}

impl fmt::Display for NumberChange {
    ghost output = { λ change. Some (number_change change.value change.signal) };

    fn fmt<W: fmt::Write>(&self, f: &mut fmt::Formatter<W>) -> fmt::Result {
        let NumberChange { value, signal } = *self;
        write!(f, "b{value:b} {signal}\n")
    }
}

/// A signal has no number from now on.
#[derive(Clone, Copy)]
pub struct AbsenceChange {
    pub signal: Signal,
}

impl fmt::Display for AbsenceChange {
    ghost output = { λ change. Some (absence_change change.signal) };

    fn fmt<W: fmt::Write>(&self, f: &mut fmt::Formatter<W>) -> fmt::Result {
        let signal = self.signal;
        write!(f, "bz {signal}\n")
    }
}

/// A signal is this text from now on.
#[derive(Clone, Copy)]
pub struct TextChange<'a> {
    pub text: &'a str,
    pub signal: Signal,
}

impl fmt::Display for TextChange<'_> {
    ghost output = { λ change. Some (text_change change.text.now change.signal) };

    fn fmt<W: fmt::Write>(&self, f: &mut fmt::Formatter<W>) -> fmt::Result {
        let TextChange { text, signal } = *self;
        write!(f, "s{text} {signal}\n")
    }
}

/// A tag is busy or free from now on, where it is one of those that have a signal.
#[derive(Clone, Copy)]
pub struct BusyChange {
    pub tags: u16,
    pub up: bool,
    pub port: u8,
    pub tag: u8,
}

impl fmt::Display for BusyChange {
    ghost output = { λ change. Some (busy_change change.tags change.up change.port change.tag) };

    fn fmt<W: fmt::Write>(&self, f: &mut fmt::Formatter<W>) -> fmt::Result {
        let BusyChange {
            tags,
            up,
            port,
            tag,
        } = *self;
        let tag = u16::from(tag);
        if tag < tags {
            let change = BitChange {
                up,
                signal: Signal::Busy { port, tag },
            };
            write!(f, "{change}")
        } else {
            Ok(())
        }
    }
}

/// What a register holds from now on, where it is one of those that have signals.
#[derive(Clone, Copy)]
pub struct HeldChange {
    pub registers: u16,
    pub level: Level,
    pub held: HeldRegister,
}

impl fmt::Display for HeldChange {
    ghost output = { λ change. Some (held_change change.registers change.level change.held) };

    fn fmt<W: fmt::Write>(&self, f: &mut fmt::Formatter<W>) -> fmt::Result {
        let HeldChange {
            registers,
            level,
            held,
        } = *self;
        let HeldRegister {
            bank,
            register,
            block,
            targets,
        } = held;
        if register < registers {
            let signal = Signal::HeldBlock {
                level,
                bank,
                register,
            };
            let block = NumberChange::new(block, signal);
            let signal = Signal::Targets {
                level,
                bank,
                register,
            };
            let targets = NumberChange::new(targets, signal);
            write!(f, "{block}{targets}")
        } else {
            Ok(())
        }
    }
}

/// A register holds no block from now on.
#[derive(Clone, Copy)]
pub struct FreeChange {
    pub level: Level,
    pub bank: u8,
    pub register: u16,
}

impl fmt::Display for FreeChange {
    ghost output = { λ change. Some (free_change change.level change.bank change.register) };

    fn fmt<W: fmt::Write>(&self, f: &mut fmt::Formatter<W>) -> fmt::Result {
        let FreeChange {
            level,
            bank,
            register,
        } = *self;
        let block = AbsenceChange {
            signal: Signal::HeldBlock {
                level,
                bank,
                register,
            },
        };
        let signal = Signal::Targets {
            level,
            bank,
            register,
        };
        let targets = NumberChange::new(0, signal);
        write!(f, "{block}{targets}")
    }
}

impl Numbered<u16> for FreeChange {
    ghost text_at = { λ p. free_change p.level p.bank };

    fn at(self, register: u16) -> Self {
        FreeChange { register, ..self }
    }
}

/// The change of a register that a fill frees, where it is one of those that have signals.
#[derive(Clone, Copy)]
pub struct FreedChange {
    pub registers: u16,
    pub level: Level,
    pub bank: u8,
    pub register: u16,
}

impl fmt::Display for FreedChange {
    ghost output = { λ change. Some (freed_change change.registers change.level change.bank change.register) };

    fn fmt<W: fmt::Write>(&self, f: &mut fmt::Formatter<W>) -> fmt::Result {
        let FreedChange {
            registers,
            level,
            bank,
            register,
        } = *self;
        if register < registers {
            let free = FreeChange {
                level,
                bank,
                register,
            };
            write!(f, "{free}")
        } else {
            Ok(())
        }
    }
}
