//! What stands for the fields that a line leaves out.

ghost use Rattle.std.specs.Prelude.{◌≡◌, ◌+◌, slice_index, slice_set};
ghost use Rattle.text_parse.specs.Defaults.{starting, default_version, defaults_after};

use crate::line::Line;

/// How many banks a line can name.
const BANKS: usize = 256;

/// The version and the numbers that are meant where a line leaves them out.
#[derive(Drop)]
pub struct Defaults {
    /// That of a header whose factor is 1.
    version: u16,
    /// Per bank: one more than its last number so far, and 0 before its first.
    next: [u64; BANKS],
}

impl Defaults {
    /// Before the first line.
    pub fn new(version: u16) -> Defaults
        ensures { result ≡ starting version }
    {
        Defaults {
            version,
            next: [0; BANKS],
        }
    }

    /// The version of a header with this factor.
    pub(crate) fn version(&self, factor: u16) -> u16
        ensures { result ≡ default_version self.now factor }
    {
        if factor == 1 { self.version } else { 3 }
    }

    /// The next number of the bank.
    pub(crate) fn next(&self, bank: u8) -> u64
        ensures { result ≡ slice_index self.now.next bank }
    {
        self.next[bank as usize]
    }

    /// Takes in what the line says: the number of its record is the last one of its bank.
    pub fn pass(&mut self, line: &Line)
        ensures { self.new ≡ defaults_after self.old line.now }
    {
        if let Line::Event(item) = line {
            self.count(item.bank, item.number);
        }
    }

    fn count(&mut self, bank: u8, number: u32)
        ensures { self.new ≡ record self.old { next = slice_set self.old.next bank (number + 1) } }
    {
        self.next[bank as usize] = u64::from(number) + 1;
    }
}
