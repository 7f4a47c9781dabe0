//! Bytes of a block: a part of them, and whether others agree with them.

ghost use Rattle.std.specs.Prelude.{◌≡◌, ℕ, ◌+◌, ◌-◌, ◌<◌, ◌≤◌, ◌||◌, ◌==◌, map, length, slice_index, bytes_eq};
ghost use Rattle.std.specs.Prelude.{slice_range, take, IfSome};
ghost use Rattle.std.specs.Int.{from_le_bytes, to_le_bytes, w64};
ghost use Rattle.std.specs.List.{range_with_len, list_all};
ghost use Rattle.lf_rules.specs.Address.{is_under};
ghost use Rattle.bank_state.specs.Bytes.{bytes_under, EndOf};

use crate::padded::Bytes;
use bank_state::{Data, data_of};
use lf_rules::Mask;

/// The eight bytes from a place on.
fn eight_at(bytes: &Bytes, offset: usize) -> [u8; 8]
    requires { offset + 8 ≤ 64 }
    ensures { result ≡ slice_range bytes.now offset (offset + 8) }
{
    let mut eight = [0; 8];
    eight.copy_from_slice(&bytes[offset..offset + 8]);
    eight
}

/// So many bytes from a place on.
pub fn part(bytes: &Bytes, offset: usize, size: usize) -> Data
    requires within { offset + size ≤ 64 }
    requires small { size ≤ 8 }
    ensures { result.items ≡ map (λ i. slice_index bytes.now (offset + i)) (range_with_len 0 size) }
{
    // Eight bytes are one copy of a known length.
    if offset + 8 <= bytes.len() {
        let mut data = Data::from(eight_at(bytes, offset));
        data.truncate(size);
        return data;
    }
    data_of(&bytes[offset..offset + size])
}

/// A number whose first bytes, the lowest first, are so many bytes from a place on.
pub fn number_at(bytes: &Bytes, offset: usize, size: usize) -> u64
    requires within { offset + size ≤ 64 }
    requires small { size ≤ 8 }
    ensures { take size (to_le_bytes w64 result) ≡ map (λ i. slice_index bytes.now (offset + i))
        (range_with_len 0 size) }
{
    if offset + 8 <= bytes.len() {
        return u64::from_le_bytes(eight_at(bytes, offset));
    }
    let mut last = [0; 8];
    last[..size].copy_from_slice(&bytes[offset..offset + size]);
    u64::from_le_bytes(last)
}

fn is_under(mask: u64, place: usize) -> bool
    requires { place < 64 }
    ensures { result ≡ is_under mask place }
{
    mask >> place & 1 == 1
}

/// Eight bytes as one number.
fn word(bytes: &[u8]) -> u64
    requires { length bytes.now ≡ 8 }
    ensures { result ≡ from_le_bytes w64 bytes.now }
{
    let mut all = [0; 8];
    all.copy_from_slice(bytes);
    u64::from_le_bytes(all)
}

/// Whether the bytes from a place on, and before another, are the stored ones, off the mask.
fn agree_between(bytes: &[u8], stored: &Bytes, mask: u64, from: usize, to: usize) -> bool
    requires order { from ≤ to }
    requires within { to ≤ length bytes.now }
    requires small { length bytes.now ≤ 64 }
    ensures { result ≡ list_all (λ i. is_under mask i || slice_index bytes.now i == slice_index stored.now i)
        (range_with_len from (to - from)) }
{
    (from..to).all(|i| is_under(mask, i) || bytes[i] == stored[i])
}

/// Whether bytes are the stored ones, off the mask.
pub fn agree_off(bytes: &[u8], stored: &Bytes, mask: u64) -> bool
    requires { length bytes.now ≤ 64 }
    ensures { result ≡ list_all (λ i. is_under mask i || slice_index bytes.now i == slice_index stored.now i)
        (range_with_len 0 (length bytes.now)) }
{
    let mut at = 0;
    while at + 8 <= bytes.len() {
        // Most words are memory's. Their bytes agree whatever the mask is.
        if word(&bytes[at..at + 8]) != word(&stored[at..at + 8])
            && !agree_between(bytes, stored, mask, at, at + 8)
        {
            return false;
        }
        at += 8;
    }
    agree_between(bytes, stored, mask, at, bytes.len())
}

/// Where the first so many stored bytes under the mask end in the list, if they stand there from a place on.
pub fn end_of_masked(
    stored: &Bytes,
    size: u32,
    mask: Mask,
    bytes: &[u8],
    from: usize,
) -> Option<usize>
    requires small { size ≤ 64 }
    requires within { from ≤ length bytes.now }
    ensures within { IfSome result (λ end. end ≤ length bytes.now) }
    ensures value { EndOf (bytes_under (slice_index stored.now) size mask.0) bytes.now from result }
{
    let mut at = from;
    let mut rest = mask.0 & Mask::of(0, size).0;
    while rest != 0 {
        let place = rest.trailing_zeros() as usize;
        if at == bytes.len() || bytes[at] != stored[place] {
            return None;
        }
        at += 1;
        // The lowest bit goes.
        rest &= rest - 1;
    }
    Some(at)
}
