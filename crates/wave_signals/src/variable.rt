//! The lines that name a signal.

ghost use Rattle.std.specs.Prelude.{Some};
ghost use Rattle.wave_signals.specs.Head.{text_variable, number_variable};

use crate::signal::Signal;
use std::fmt;

/// The line that names a signal whose values are texts.
#[derive(Clone, Copy)]
pub struct TextVariable {
    pub signal: Signal,
    pub name: &'static str,
}

impl fmt::Display for TextVariable {
    ghost output = { λ v. Some (text_variable v.signal v.name.now) };

    fn fmt<W: fmt::Write>(&self, f: &mut fmt::Formatter<W>) -> fmt::Result {
        let TextVariable { signal, name } = *self;
        write!(f, "$var string 1 {signal} {name} $end\n")
    }
}

/// The line that names a signal whose values are numbers of so many bits.
#[derive(Clone, Copy)]
pub struct NumberVariable {
    pub width: u8,
    pub signal: Signal,
    pub name: &'static str,
}

impl fmt::Display for NumberVariable {
    ghost output = { λ v. Some (number_variable v.width v.signal v.name.now) };

    fn fmt<W: fmt::Write>(&self, f: &mut fmt::Formatter<W>) -> fmt::Result {
        let NumberVariable {
            width,
            signal,
            name,
        } = *self;
        write!(f, "$var wire {width} {signal} {name} $end\n")
    }
}
