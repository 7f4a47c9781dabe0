//! The time that a map tells of a record.

ghost use Rattle.std.specs.Prelude.{◌≡◌, Some};
ghost use Rattle.std.specs.Option.{option_map};
ghost use Rattle.wave_signals.specs.Times.{is_plain, escaped_byte, escaped, time_text, told_time};

use crate::signal::Signal;
use std::fmt;
use wave_order::Clock;

/// Whether a byte stands as it is. A blank would end the text, and a backslash stands before an escape.
fn is_plain(byte: u8) -> bool
    ensures { result ≡ is_plain byte }
{
    b'!' <= byte && byte <= b'~' && byte != b'\\'
}

/// A byte of a text.
#[derive(Clone, Copy)]
struct EscapedByte(u8);

impl fmt::Display for EscapedByte {
    ghost output = { λ byte. Some (escaped_byte byte.0) };

    fn fmt<W: fmt::Write>(&self, f: &mut fmt::Formatter<W>) -> fmt::Result {
        let byte = self.0;
        if is_plain(byte) {
            return f.write_char(char::from(byte));
        }
        write!(f, "\\{}{}{}", byte / 64, byte / 8 % 8, byte % 8)
    }
}

/// A text in which what would not be read back stands as octal escapes.
#[derive(Clone, Copy)]
struct Escaped<'a>(&'a [u8]);

impl fmt::Display for Escaped<'_> {
    ghost output = { λ text. Some (escaped text.0.now) };

    fn fmt<W: fmt::Write>(&self, f: &mut fmt::Formatter<W>) -> fmt::Result {
        for byte in self.0 {
            let byte = EscapedByte(*byte);
            write!(f, "{byte}")?;
        }
        Ok(())
    }
}

/// The time of a record, or nothing where the map tells none.
#[derive(Clone, Copy)]
struct TimeText<'a> {
    time: Option<&'a str>,
}

impl fmt::Display for TimeText<'_> {
    ghost output = { λ t. Some (time_text (option_map (λ time. time.now) t.time)) };

    fn fmt<W: fmt::Write>(&self, f: &mut fmt::Formatter<W>) -> fmt::Result {
        let Some(time) = self.time else {
            return Ok(());
        };
        let text = Escaped(time.as_bytes());
        write!(f, "{text}")
    }
}

/// The time that the map tells of the record at a place of a log, where there is a map.
#[derive(Clone, Copy)]
pub struct ToldTime<'a> {
    pub times: &'a Option<Clock>,
    pub log: u8,
    pub place: u64,
}

impl fmt::Display for ToldTime<'_> {
    ghost output = { λ t. Some (told_time t.times.now t.log t.place) };

    fn fmt<W: fmt::Write>(&self, f: &mut fmt::Formatter<W>) -> fmt::Result {
        let Some(clock) = self.times else {
            return Ok(());
        };
        let text = TimeText {
            time: clock.of(self.log, self.place),
        };
        let signal = Signal::Time;
        write!(f, "s{text} {signal}\n")
    }
}
