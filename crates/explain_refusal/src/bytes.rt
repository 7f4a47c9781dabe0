//! Numbers in bytes, where a byte that is missing counts as 0.

ghost use Rattle.std.specs.Prelude.{◌≡◌, ◌/◌, ◌%◌, ◌^◌, ◌<◌, take, drop, Some};
ghost use Rattle.lf_codec.specs.Checks.{byte_at, u16_at, u32_at, u64_at};
ghost use Rattle.lf_codec.specs.Steps.{header_at};
ghost use Rattle.text_print.specs.Text.{hexadecimal};
ghost use Rattle.explain_refusal.specs.Bytes.{spaced_bytes, listed_bytes};

use lf_codec::Header;
use std::fmt;

/// The byte at a place.
pub(crate) fn byte_at(bytes: &[u8], place: usize) -> u8
    ensures { result ≡ byte_at place bytes.now }
{
    match bytes.get(place) {
        Some(byte) => *byte,
        None => 0,
    }
}

/// The bytes from a place on.
pub(crate) fn behind(bytes: &[u8], place: usize) -> &[u8]
    ensures { result.now ≡ drop place bytes.now }
{
    if place <= bytes.len() {
        &bytes[place..]
    } else {
        &[]
    }
}

/// The first bytes, at most so many.
pub fn up_to(bytes: &[u8], len: u64) -> &[u8]
    ensures { result.now ≡ take len bytes.now }
{
    if len < bytes.len() as u64 {
        &bytes[..len as usize]
    } else {
        bytes
    }
}

/// The number in the two bytes from a place on.
#[tactic(auto, unfolding(lf_codec::specs::Checks::u16_at))]
pub(crate) fn u16_at(bytes: &[u8], place: usize) -> u16
    requires { place < 2 ^ 32 }
    ensures { result ≡ u16_at place bytes.now }
{
    u16::from(byte_at(bytes, place)) + 0x100 * u16::from(byte_at(bytes, place + 1))
}

/// The number in the four bytes from a place on.
pub(crate) fn u32_at(bytes: &[u8], place: usize) -> u32
    requires { place < 2 ^ 31 }
    ensures { result ≡ u32_at place bytes.now }
{
    u32::from(u16_at(bytes, place)) + 0x1_0000 * u32::from(u16_at(bytes, place + 2))
}

/// The number in the eight bytes from a place on.
pub(crate) fn u64_at(bytes: &[u8], place: usize) -> u64
    requires { place < 2 ^ 30 }
    ensures { result ≡ u64_at place bytes.now }
{
    u64::from(u32_at(bytes, place)) + 0x1_0000_0000 * u64::from(u32_at(bytes, place + 4))
}

/// The header that the first 16 bytes spell, whether or not its numbers are allowed. Bytes that are not there are 0.
pub fn header_at(bytes: &[u8]) -> Header
    ensures { result ≡ header_at bytes.now }
{
    let version = u16_at(bytes, 4);
    Header {
        version,
        ports: byte_at(bytes, 6),
        banks: byte_at(bytes, 7),
        block: u16_at(bytes, 8),
        factor: if version == 3 { u16_at(bytes, 10) } else { 1 },
        memory_count: u32_at(bytes, 12),
    }
}

/// `n / by`, and 0 where that is no number.
pub(crate) fn quotient(n: u64, by: u64) -> u64
    ensures { result ≡ n / by }
{
    if by == 0 { 0 } else { n / by }
}

/// `n % by`, and `n` where that is no number.
pub(crate) fn remainder(n: u64, by: u64) -> u64
    ensures { result ≡ n % by }
{
    if by == 0 { n } else { n % by }
}

/// A number in hexadecimal digits.
#[derive(Clone, Copy)]
pub(crate) struct Hexadecimal(pub u64);

impl fmt::Display for Hexadecimal {
    ghost output = { λ number. Some (hexadecimal number.0) };

    fn fmt<W: fmt::Write>(&self, f: &mut fmt::Formatter<W>) -> fmt::Result {
        let number = self.0;
        write!(f, "0x{number:x}")
    }
}

/// Bytes as two hexadecimal digits each, with a blank before each.
#[derive(Clone, Copy)]
pub(crate) struct SpacedBytes<'a>(pub &'a [u8]);

impl fmt::Display for SpacedBytes<'_> {
    ghost output = { λ bytes. Some (spaced_bytes bytes.0.now) };

    fn fmt<W: fmt::Write>(&self, f: &mut fmt::Formatter<W>) -> fmt::Result {
        for byte in self.0 {
            let high = *byte / 16;
            let low = *byte % 16;
            write!(f, " {high:x}{low:x}")?;
        }
        Ok(())
    }
}

/// The first bytes, at most 32, and three dots where there are more.
#[derive(Clone, Copy)]
pub(crate) struct ListedBytes<'a>(pub &'a [u8]);

impl fmt::Display for ListedBytes<'_> {
    ghost output = { λ bytes. Some (listed_bytes bytes.0.now) };

    fn fmt<W: fmt::Write>(&self, f: &mut fmt::Formatter<W>) -> fmt::Result {
        if self.0.is_empty() {
            return write!(f, " none");
        }
        if self.0.len() <= 32 {
            let all = SpacedBytes(self.0);
            return write!(f, "{all}");
        }
        let first = SpacedBytes(up_to(self.0, 32));
        write!(f, "{first} ...")
    }
}
