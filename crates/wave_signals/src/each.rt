//! Texts that have a part for each number from 0 on.

ghost use Rattle.std.specs.Prelude.{◌≡◌, ℕ, List, Some, flat_map};
ghost use Rattle.std.specs.List.{range_with_len};

use std::fmt;

/// A part that has a number.
pub trait Numbered<N>: fmt::Display + Copy + Drop {
    // its text under each number
    ghost text_at: { Self → N → List ℕ };

    /// The part of this number.
    fn at(self, number: N) -> Self
        ensures { Self.output result ≡ Some (text_at self number) };
}

/// The parts of the first numbers of 16 bits.
#[derive(Clone, Copy)]
pub struct Each<P> {
    /// The part of number 0.
    pub part: P,
    pub count: u16,
}

impl<P: Numbered<u16>> fmt::Display for Each<P> {
    ghost output = { λ e. Some (flat_map (P.text_at e.part) (range_with_len 0 e.count)) };

    fn fmt<W: fmt::Write>(&self, f: &mut fmt::Formatter<W>) -> fmt::Result {
        for number in 0..self.count {
            let part = self.part.at(number);
            write!(f, "{part}")?;
        }
        Ok(())
    }
}

/// The parts of the first numbers of 8 bits.
#[derive(Clone, Copy)]
pub struct EachByte<P> {
    /// The part of number 0.
    pub part: P,
    pub count: u8,
}

impl<P: Numbered<u8>> fmt::Display for EachByte<P> {
    ghost output = { λ e. Some (flat_map (P.text_at e.part) (range_with_len 0 e.count)) };

    fn fmt<W: fmt::Write>(&self, f: &mut fmt::Formatter<W>) -> fmt::Result {
        for number in 0..self.count {
            let part = self.part.at(number);
            write!(f, "{part}")?;
        }
        Ok(())
    }
}
