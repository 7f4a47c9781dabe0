//! Where a block of level one stands: in which bank, and at which place of which second-level block.

ghost use Rattle.std.specs.Prelude.{◌≡◌, ◌≤◌, ◌<◌, ◌+◌, ◌*◌, ◌/◌, ◌^◌, length};
ghost use Rattle.lf_rules.specs.Address.{bank_of, part_at, place_of, second_of, sub_block};
ghost use Rattle.lf_rules.specs.InRange.{IsShape};

use lf_rules::{Shape, quotient, remainder};

/// The bank of a block.
pub fn bank_of(shape: &Shape, block: u32) -> u32
    requires { IsShape shape.now }
    ensures { result ≡ bank_of shape.now block }
{
    remainder(quotient(block, shape.factor), shape.banks)
}

/// The second-level block of a block.
pub fn second_of(shape: &Shape, block: u32) -> u32
    requires { IsShape shape.now }
    ensures { result ≡ second_of shape.now block }
{
    quotient(block, shape.factor)
}

/// The place of a block in its second-level block.
pub fn place_of(shape: &Shape, block: u32) -> u32
    requires { IsShape shape.now }
    ensures place { result ≡ place_of shape.now block }
    ensures below { result < shape.now.factor }
{
    remainder(block, shape.factor)
}

/// The block at a place of a second-level block.
pub fn sub_block(shape: &Shape, second: u32, place: u32) -> u32
    requires in_range { IsShape shape.now }
    requires fits { second < 0x1_0000_0000 / shape.now.factor }
    requires inside { place < shape.now.factor }
    ensures { result ≡ sub_block shape.now second place }
{
    second * shape.factor + place
}

/// Of the bytes of a second-level block those of the block at this place.
pub fn part_at(size: usize, bytes: &[u8], place: usize) -> &[u8]
    requires within { place * size + size ≤ length bytes.now }
    requires small { place * size < 2 ^ 32 }
    ensures { result.now ≡ part_at size bytes.now place }
{
    let at = place * size;
    &bytes[at..at + size]
}
