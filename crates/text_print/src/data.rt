//! The bytes that a record carries.

ghost use Rattle.std.specs.Prelude.{◌≡◌, ◌*◌, length, Some};
ghost use Rattle.hex.specs.Hex.{encode_lower};
ghost use Rattle.text_print.specs.Text.{hexadecimal, data_text};

use std::{fmt, str};

/// A number in small hexadecimal digits, as addresses and masks are written.
#[derive(Clone, Copy)]
pub(crate) struct Hexadecimal(pub u64);

impl fmt::Display for Hexadecimal {
    ghost output = { λ number. Some (hexadecimal number.0) };

    fn fmt<W: fmt::Write>(&self, f: &mut fmt::Formatter<W>) -> fmt::Result {
        let number = self.0;
        write!(f, "0x{number:x}")
    }
}

/// Bytes as two small hexadecimal digits each.
#[derive(Clone, Copy)]
pub(crate) struct Hex<'a>(pub &'a [u8]);

/// The digits of these bytes, which are put into the buffer.
fn spell<'a>(bytes: &[u8], digits: &'a mut [u8]) -> &'a str
    requires { length digits.old ≡ 2 * length bytes.now }
    ensures { result.now ≡ encode_lower bytes.now }
{
    let _ = hex::encode_to_slice(bytes, digits);
    match str::from_utf8(digits) {
        Ok(text) => text,
        Err(_) => unreachable!(),
    }
}

impl fmt::Display for Hex<'_> {
    ghost output = { λ hex. Some (encode_lower hex.0.now) };

    fn fmt<W: fmt::Write>(&self, f: &mut fmt::Formatter<W>) -> fmt::Result {
        let mut buffer = [0; 128];
        let mut rest = self.0;
        while !rest.is_empty() {
            let len = rest.len().min(64);
            let text = spell(&rest[..len], &mut buffer[..2 * len]);
            f.write_str(text)?;
            rest = &rest[len..];
        }
        Ok(())
    }
}

/// The field of a record's bytes, which is left out where there are none.
#[derive(Clone, Copy)]
pub struct Data<'a>(pub &'a [u8]);

impl fmt::Display for Data<'_> {
    ghost output = { λ bytes. Some (data_text bytes.0.now) };

    fn fmt<W: fmt::Write>(&self, f: &mut fmt::Formatter<W>) -> fmt::Result {
        if self.0.is_empty() {
            return Ok(());
        }
        let digits = Hex(self.0);
        write!(f, " bytes={digits}")
    }
}
