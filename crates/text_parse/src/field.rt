//! The fields of a line: their values, and the text behind them.

ghost use Rattle.std.specs.Prelude.{◌≡◌, ◌≤◌, ◌^◌, Bool, length, IfOk, IfSome};
ghost use Rattle.std.specs.Option.{option_map};
ghost use Rattle.text_parse.specs.Words.{Gives};
ghost use Rattle.text_parse.specs.Fields.{field_at, is_field, digit_added, number_of, decimal_at, number_at};
ghost use Rattle.text_parse.specs.Fields.{version_at, hexadecimal_at, bytes_of, bytes_at, carried_at, masks_at};

use crate::fault::{Expected, Lack, Name};
use crate::scan::{is_over, split_word, without_blanks};
use lf_rules::{Block, Mask, Masks, WideBlock};

/// The value of the next field, which has this name.
#[tactic(auto, unfolding(crate::specs::Fields::field_at))]
fn field(name: Name, text: &[u8]) -> Result<(&[u8], &[u8]), Lack>
    ensures { Gives (λ x. (x.0.now, x.1.now)) result (field_at name text.now) }
{
    let text = without_blanks(text);
    let (word, rest) = split_word(text);
    match word.strip_prefix(name.text().as_bytes()) {
        Some(value) => Ok((value, rest)),
        None => Err(Lack {
            expected: Expected::Field(name),
            left: text.len(),
        }),
    }
}

/// The number with a digit behind it, if that is not above the most.
fn with_digit(radix: u32, most: u64, number: u64, digit: u8) -> Option<u64>
    requires low { 2 ≤ radix }
    requires high { radix ≤ 36 }
    ensures value { result ≡ digit_added radix most number digit }
    ensures within { IfSome result (λ n. n ≤ most) }
{
    let value = char::from(digit).to_digit(radix)?;
    let number = number
        .checked_mul(u64::from(radix))?
        .checked_add(u64::from(value))?;
    if number <= most { Some(number) } else { None }
}

/// The number of these digits, if it is not above the most. A sign is no digit.
#[tactic(auto, unfolding(crate::specs::Fields::number_of))]
fn number(radix: u32, most: u64, digits: &[u8]) -> Option<u64>
    requires low { 2 ≤ radix }
    requires high { radix ≤ 36 }
    ensures value { result ≡ number_of radix most digits.now }
    ensures within { IfSome result (λ n. n ≤ most) }
{
    if digits.is_empty() {
        return None;
    }
    let mut number = 0;
    for digit in digits {
        number = with_digit(radix, most, number, *digit)?;
    }
    Some(number)
}

/// A decimal number up to the most.
#[tactic(auto, unfolding(crate::specs::Fields::decimal_at))]
fn decimal(name: Name, most: u64, text: &[u8]) -> Result<(u64, &[u8]), Lack>
    ensures value { Gives (λ x. (x.0, x.1.now)) result (decimal_at name most text.now) }
    ensures within { IfOk result (λ x. x.0 ≤ most) }
{
    let (value, rest) = field(name, text)?;
    match number(10, most, value) {
        Some(number) => Ok((number, rest)),
        None => Err(Lack {
            expected: Expected::Number { most },
            left: value.len() + rest.len(),
        }),
    }
}

/// A decimal number of a byte, up to the most.
pub(crate) fn byte_up_to(name: Name, most: u8, text: &[u8]) -> Result<(u8, &[u8]), Lack>
    ensures value { Gives (λ x. (x.0, x.1.now)) result (decimal_at name most text.now) }
    ensures within { IfOk result (λ x. x.0 ≤ most) }
{
    let (number, rest) = decimal(name, u64::from(most), text)?;
    Ok((number as u8, rest))
}

/// A decimal number of a byte.
pub(crate) fn byte(name: Name, text: &[u8]) -> Result<(u8, &[u8]), Lack>
    ensures { Gives (λ x. (x.0, x.1.now)) result (decimal_at name 0xff text.now) }
{
    byte_up_to(name, u8::MAX, text)
}

/// A decimal number of two bytes.
pub(crate) fn short(name: Name, text: &[u8]) -> Result<(u16, &[u8]), Lack>
    ensures { Gives (λ x. (x.0, x.1.now)) result (decimal_at name 0xffff text.now) }
{
    let (number, rest) = decimal(name, u64::from(u16::MAX), text)?;
    Ok((number as u16, rest))
}

/// A decimal number of four bytes.
pub(crate) fn word(name: Name, text: &[u8]) -> Result<(u32, &[u8]), Lack>
    ensures { Gives (λ x. (x.0, x.1.now)) result (decimal_at name 0xffff_ffff text.now) }
{
    let (number, rest) = decimal(name, u64::from(u32::MAX), text)?;
    Ok((number as u32, rest))
}

/// Whether the field of this name comes next.
fn is_field(name: Name, text: &[u8]) -> bool
    ensures { result ≡ is_field name text.now }
{
    field(name, text).is_ok()
}

/// The number of a record: the next one of its bank, where it is left out.
#[tactic(auto, unfolding(crate::specs::Fields::number_at))]
pub(crate) fn number_or(next: u64, text: &[u8]) -> Result<(u32, &[u8]), Lack>
    ensures { Gives (λ x. (x.0, x.1.now)) result (number_at next text.now) }
{
    if is_field(Name::Number, text) || next > u64::from(u32::MAX) {
        return word(Name::Number, text);
    }
    Ok((next as u32, text))
}

/// The version, where it is not left out.
#[tactic(auto, unfolding(crate::specs::Fields::version_at))]
pub(crate) fn version(text: &[u8]) -> Result<(Option<u16>, &[u8]), Lack>
    ensures { Gives (λ x. (x.0, x.1.now)) result (version_at text.now) }
{
    if !is_field(Name::Version, text) {
        return Ok((None, text));
    }
    let (version, text) = short(Name::Version, text)?;
    Ok((Some(version), text))
}

/// A number in hexadecimal digits behind `0x`.
#[tactic(auto, unfolding(crate::specs::Fields::hexadecimal_at))]
pub(crate) fn hexadecimal(name: Name, text: &[u8]) -> Result<(u64, &[u8]), Lack>
    ensures { Gives (λ x. (x.0, x.1.now)) result (hexadecimal_at name text.now) }
{
    let (value, rest) = field(name, text)?;
    let found = match value.strip_prefix(b"0x") {
        Some(digits) => number(16, u64::MAX, digits),
        None => None,
    };
    match found {
        Some(number) => Ok((number, rest)),
        None => Err(Lack {
            expected: Expected::Hexadecimal,
            left: value.len() + rest.len(),
        }),
    }
}

/// The bytes of these digits, if there is room for them.
#[tactic(auto, unfolding(crate::specs::Fields::bytes_of))]
fn decode<'a>(digits: &[u8], room: &'a mut [u8]) -> Option<&'a [u8]>
    ensures value { option_map (λ bytes. bytes.now) result ≡ bytes_of (length room.old) digits.now }
    ensures within { IfSome result (λ bytes. length bytes.now ≤ length room.old) }
{
    let len = digits.len() / 2;
    if len > room.len() {
        return None;
    }
    let bytes = &mut room[..len];
    match hex::decode_to_slice(digits, bytes) {
        Ok(()) => Some(bytes),
        Err(_) => None,
    }
}

/// The field of the bytes, which are put into the room.
#[tactic(auto, unfolding(crate::specs::Fields::bytes_at))]
fn bytes<'a, 'b>(text: &'a [u8], room: &'b mut [u8]) -> Result<(&'b [u8], &'a [u8]), Lack>
    ensures value { Gives (λ x. (x.0.now, x.1.now)) result (bytes_at (length room.old) text.now) }
    ensures within { IfOk result (λ x. length x.0.now ≤ length room.old) }
{
    let most = room.len() as u64;
    let (value, rest) = field(Name::Bytes, text)?;
    match decode(value, room) {
        Some(bytes) => Ok((bytes, rest)),
        None => Err(Lack {
            expected: Expected::Bytes { most },
            left: value.len() + rest.len(),
        }),
    }
}

fn block_of(bytes: &[u8]) -> Block
    requires { length bytes.now ≤ 64 }
    ensures { result.items ≡ bytes.now }
{
    let mut block = Block::new();
    let _ = block.try_extend_from_slice(bytes);
    block
}

fn wide_block_of(bytes: &[u8]) -> WideBlock
    requires { length bytes.now ≤ 256 }
    ensures { result.items ≡ bytes.now }
{
    let mut block = WideBlock::new();
    let _ = block.try_extend_from_slice(bytes);
    block
}

/// The field of a block's bytes.
pub(crate) fn block_bytes(text: &[u8]) -> Result<(Block, &[u8]), Lack>
    ensures { Gives (λ x. (x.0.items, x.1.now)) result (bytes_at 64 text.now) }
{
    let mut room = [0; 64];
    let (bytes, rest) = bytes(text, &mut room)?;
    Ok((block_of(bytes), rest))
}

/// The bytes that an event carries: none where the line ends.
#[tactic(auto, unfolding(crate::specs::Fields::carried_at))]
pub(crate) fn carried(text: &[u8]) -> Result<(Block, &[u8]), Lack>
    ensures { Gives (λ x. (x.0.items, x.1.now)) result (carried_at 64 text.now) }
{
    if is_over(without_blanks(text)) {
        return Ok((Block::new(), text));
    }
    block_bytes(text)
}

/// The bytes that an event of a second-level block carries: none where the line ends.
#[tactic(auto, unfolding(crate::specs::Fields::carried_at))]
pub(crate) fn wide_carried(text: &[u8]) -> Result<(WideBlock, &[u8]), Lack>
    ensures { Gives (λ x. (x.0.items, x.1.now)) result (carried_at 256 text.now) }
{
    if is_over(without_blanks(text)) {
        return Ok((WideBlock::new(), text));
    }
    let mut room = [0; 256];
    let (bytes, rest) = bytes(text, &mut room)?;
    Ok((wide_block_of(bytes), rest))
}

/// The masks that come, up to four.
#[tactic(auto, unfolding(crate::specs::Fields::masks_at))]
pub(crate) fn masks(text: &[u8]) -> Result<(Masks, &[u8]), Lack>
    ensures { Gives (λ x. (x.0.items, x.1.now)) result (masks_at 4 text.now) }
{
    let mut masks = Masks::new();
    let mut rest = text;
    for _ in 0..4u8 {
        if !is_field(Name::Mask, rest) {
            return Ok((masks, rest));
        }
        let (bits, behind) = hexadecimal(Name::Mask, rest)?;
        masks.push(Mask(bits));
        rest = behind;
    }
    Ok((masks, rest))
}
