//! A point, and how often it was reached.

ghost use Rattle.std.specs.Prelude.{Some};
ghost use Rattle.count_coverage.specs.Text.{tally_text};

use crate::point::Point;
use std::fmt;

/// A point, and how often it was reached.
#[derive(Clone, Copy, PartialEq, Eq)]
pub struct Tally {
    pub point: Point,
    pub count: u32,
}

impl fmt::Display for Tally {
    ghost output = { λ tally. Some (tally_text tally) };

    fn fmt<W: fmt::Write>(&self, f: &mut fmt::Formatter<W>) -> fmt::Result {
        let Tally { point, count } = *self;
        write!(f, "{point}={count}")
    }
}
