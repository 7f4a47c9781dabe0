//! The texts of faults.

ghost use Rattle.std.specs.Prelude.{◌≡◌, Some};
ghost use Rattle.lf_codec.specs.Text.{cause_text, fault_text};

use crate::fault::{CodecCause, CodecFault};
use std::fmt;

impl CodecCause {
    fn name(self) -> &'static str
        ensures { result.now ≡ cause_text self }
    {
        match self {
            CodecCause::Magic => "Magic",
            CodecCause::Version => "Version",
            CodecCause::HeaderRange => "HeaderRange",
            CodecCause::MemoryOrder => "MemoryOrder",
            CodecCause::Kind => "Kind",
            CodecCause::LogKind => "LogKind",
            CodecCause::BankRange => "BankRange",
            CodecCause::WrongBank => "WrongBank",
            CodecCause::Reserved => "Reserved",
            CodecCause::Op => "Op",
            CodecCause::Size => "Size",
            CodecCause::Alignment => "Alignment",
            CodecCause::BlockRange => "BlockRange",
            CodecCause::MaskRange => "MaskRange",
            CodecCause::TooMany => "TooMany",
            CodecCause::Count => "Count",
            CodecCause::Truncated => "Truncated",
            CodecCause::Trailing => "Trailing",
            CodecCause::NoMemory => "NoMemory",
        }
    }
}

/// The name of the check.
impl fmt::Display for CodecCause {
    ghost output = { λ cause. Some (cause_text cause) };

    fn fmt<W: fmt::Write>(&self, f: &mut fmt::Formatter<W>) -> fmt::Result {
        let name = self.name();
        write!(f, "{name}")
    }
}

/// The name of the check, and the offset.
impl fmt::Display for CodecFault {
    ghost output = { λ fault. Some (fault_text fault) };

    fn fmt<W: fmt::Write>(&self, f: &mut fmt::Formatter<W>) -> fmt::Result {
        let CodecFault { cause, offset } = self;
        write!(f, "{cause} at={offset}")
    }
}
