//! Why a line cannot be read.

ghost use Rattle.std.specs.Prelude.{◌≡◌, Some};
ghost use Rattle.text_parse.specs.Text.{name_text, expected_text, fault_text};

use std::fmt;

/// The name of a field.
#[derive(Clone, Copy, PartialEq, Eq)]
pub enum Name {
    Version,
    Ports,
    Banks,
    Block,
    Factor,
    Memory,
    Bytes,
    Port,
    Bank,
    Number,
    Tag,
    Size,
    Address,
    Register,
    Mask,
    Count,
}

impl Name {
    /// The name as it stands in a line, with the sign behind it.
    pub fn text(self) -> &'static str
        ensures { result.now ≡ name_text self }
    {
        match self {
            Name::Version => "version=",
            Name::Ports => "ports=",
            Name::Banks => "banks=",
            Name::Block => "block=",
            Name::Factor => "factor=",
            Name::Memory => "memory=",
            Name::Bytes => "bytes=",
            Name::Port => "port=",
            Name::Bank => "bank=",
            Name::Number => "number=",
            Name::Tag => "tag=",
            Name::Size => "size=",
            Name::Address => "address=",
            Name::Register => "register=",
            Name::Mask => "mask=",
            Name::Count => "count=",
        }
    }
}

/// What has to stand at a place of a line.
#[derive(Clone, Copy, PartialEq, Eq)]
pub enum Expected {
    /// The word of a line.
    Word,
    /// The field of this name.
    Field(Name),
    /// A decimal number up to this one.
    Number { most: u64 },
    /// A number in hexadecimal digits, below 2^64, behind `0x`.
    Hexadecimal,
    /// Up to so many bytes, each two hexadecimal digits.
    Bytes { most: u64 },
    /// The end of the line, or a comment.
    End,
}

impl fmt::Display for Expected {
    ghost output = { λ expected. Some (expected_text expected) };

    fn fmt<W: fmt::Write>(&self, f: &mut fmt::Formatter<W>) -> fmt::Result {
        match self {
            Expected::Word => f.write_str("lfts, memory, an event or end"),
            Expected::Field(name) => {
                let name = name.text();
                write!(f, "{name}")
            }
            Expected::Number { most } => write!(f, "a number up to {most}"),
            Expected::Hexadecimal => f.write_str("0x and up to 16 hexadecimal digits"),
            Expected::Bytes { most } => {
                write!(f, "up to {most} bytes of two hexadecimal digits each")
            }
            Expected::End => f.write_str("the end of the line or a comment"),
        }
    }
}

/// What is expected at a place, with the length of the text from there on.
#[derive(Clone, Copy, PartialEq, Eq)]
pub(crate) struct Lack {
    pub expected: Expected,
    pub left: usize,
}

/// The first place of a line at which another text is expected.
#[derive(Clone, Copy, PartialEq, Eq)]
pub struct TextFault {
    /// The place, from 1 on, in bytes.
    pub column: usize,
    /// What has to stand there.
    pub expected: Expected,
}

impl fmt::Display for TextFault {
    ghost output = { λ fault. Some (fault_text fault) };

    fn fmt<W: fmt::Write>(&self, f: &mut fmt::Formatter<W>) -> fmt::Result {
        let TextFault { column, expected } = self;
        write!(f, "column={column} expected {expected}")
    }
}
