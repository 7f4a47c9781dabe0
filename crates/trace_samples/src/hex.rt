//! Bytes and masks in hex.

ghost use Rattle.std.specs.Prelude.{◌<◌};

use arrayvec::ArrayVec;
use lf_rules::{Block, Mask, Masks, WideBlock};
use std::alloc::{AllocError, Global};

fn digit(c: u8) -> u8
    ensures { result < 16 }
{
    match c {
        b'0'..=b'9' => c - b'0',
        b'a'..=b'f' => c - b'a' + 10,
        _ => 0,
    }
}

/// The bytes of a text such as `aabb ccdd`.
pub fn bytes_of(alloc: Global, text: &str) -> Result<Vec<u8>, AllocError> {
    let mut all = Vec::new(alloc);
    for word in text.split(' ') {
        for pair in word.as_bytes().chunks(2) {
            if let [high, low] = pair {
                all.push(digit(*high) * 16 + digit(*low))?;
            }
        }
    }
    Ok(all)
}

/// The bytes of a text such as `aabb`, as many as there is room for.
fn bytes_up_to<const N: usize>(text: &str) -> ArrayVec<u8, N> {
    let mut all = ArrayVec::new();
    for pair in text.as_bytes().chunks(2) {
        if let [high, low] = pair {
            let _ = all.try_push(digit(*high) * 16 + digit(*low));
        }
    }
    all
}

/// The bytes of a text such as `aabb`.
pub fn block(text: &str) -> Block {
    bytes_up_to(text)
}

/// The bytes of a text such as `aabb`.
pub fn wide_block(text: &str) -> WideBlock {
    bytes_up_to(text)
}

/// The masks of a text such as `00,01`.
pub fn masks(text: &str) -> Masks {
    let mut masks = Masks::new();
    for mask in text.split(',') {
        let bits = u64::from_str_radix(mask, 16).unwrap_or(0);
        let _ = masks.try_push(Mask(bits));
    }
    masks
}
