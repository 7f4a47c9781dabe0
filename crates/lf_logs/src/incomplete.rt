//! Requests that have no reply.

ghost use Rattle.std.specs.Prelude.{Some};
ghost use Rattle.lf_logs.specs.Incomplete.{incomplete_text};

use std::fmt;

/// A request that has no reply at the end of its port's log.
#[derive(Clone, Copy, Debug, PartialEq, Eq)]
pub struct Incomplete {
    pub port: u8,
    pub tag: u8,
}

impl fmt::Display for Incomplete {
    ghost output = { λ found. Some (incomplete_text found) };

    fn fmt<W: fmt::Write>(&self, f: &mut fmt::Formatter<W>) -> fmt::Result {
        let Incomplete { port, tag } = *self;
        write!(f, "incomplete port={port} tag={tag}")
    }
}
