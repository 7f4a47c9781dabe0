//! Whether the bytes that an event carries are those of flat memory.

ghost use Rattle.std.specs.Prelude.{◌≡◌, ◌≤◌, ◌<◌, ◌*◌, ◌/◌, length};
ghost use Rattle.lf_rules.specs.Address.{sub_block, part_at, agree_off, block_bytes};
ghost use Rattle.lf_rules.specs.InRange.{IsShape};
ghost use Rattle.lf_rules.specs.declared.event.Event.TheVariants as event;
ghost use Rattle.lf_rules.specs.State.{Slice};
ghost use Rattle.lf_rules.specs.Table.{carries, store_bytes};
ghost use Rattle.bank_state.specs.Bytes.{flat_of};
ghost use Rattle.model_plain.specs.Plain.{slice_of};

use crate::registers::store_bytes;
use crate::slice::PlainSlice;
use bank_state::{FlatMemory, part_at, sub_block};
use lf_rules::{Block, Mask, Masks, Shape, WideBlock};

/// Whether a fill carries memory's bytes, off those that waiting stores of the block write.
pub fn fill1_agrees(
    shape: &Shape,
    memory: &FlatMemory,
    slice: &PlainSlice,
    block: u32,
    bytes: &Block,
) -> bool
    requires small { shape.now.block ≤ 64 }
    requires whole { length bytes.now.items ≡ shape.now.block }
    ensures { result ≡ carries shape.now (flat_of memory.now) (slice_of slice.now) (event.Fill1 block bytes.now) }
{
    memory.agrees_off(shape, block, bytes, store_bytes(&slice.waiting, block))
}

/// Whether an eviction carries memory's bytes under its mask.
pub fn evict1_agrees(
    shape: &Shape,
    memory: &FlatMemory,
    block: u32,
    mask: Mask,
    bytes: &Block,
) -> bool
    requires { shape.now.block ≤ 64 }
    ensures { (slice : Slice) → result ≡ carries shape.now (flat_of memory.now) slice
        (event.Evict1 block mask bytes.now) }
{
    memory.carries(shape, block, mask, bytes)
}

/// Whether the part of the block at this place is memory's, off the bytes of waiting stores.
fn part_agrees(
    shape: &Shape,
    memory: &FlatMemory,
    slice: &PlainSlice,
    second: u32,
    bytes: &WideBlock,
    place: u32,
) -> bool
    requires in_range { IsShape shape.now }
    requires fits { second < 0x1_0000_0000 / shape.now.factor }
    requires inside { place < shape.now.factor }
    requires len { length bytes.now.items ≡ shape.now.factor * shape.now.block }
    ensures { let block = sub_block shape.now second place in
        result ≡ agree_off shape.now.block (part_at shape.now.block bytes.now.items place)
        (block_bytes shape.now (flat_of memory.now) block)
        (store_bytes (slice_of slice.now).waiting block) }
{
    let block = sub_block(shape, second, place);
    let part = part_at(shape.block as usize, bytes, place as usize);
    memory.agrees_off(shape, block, part, store_bytes(&slice.waiting, block))
}

/// Whether a fill of level two carries memory's bytes, off those that waiting stores of its blocks
/// write.
pub fn fill2_agrees(
    shape: &Shape,
    memory: &FlatMemory,
    slice: &PlainSlice,
    second: u32,
    bytes: &WideBlock,
) -> bool
    requires in_range { IsShape shape.now }
    requires fits { second < 0x1_0000_0000 / shape.now.factor }
    requires len { length bytes.now.items ≡ shape.now.factor * shape.now.block }
    ensures { result ≡ carries shape.now (flat_of memory.now) (slice_of slice.now) (event.Fill2 second bytes.now) }
{
    for place in 0..shape.factor {
        if !part_agrees(shape, memory, slice, second, bytes, place) {
            return false;
        }
    }
    true
}

/// Whether an eviction of level two carries memory's bytes under its masks.
pub fn evict2_agrees(
    shape: &Shape,
    memory: &FlatMemory,
    second: u32,
    masks: &Masks,
    bytes: &WideBlock,
) -> bool
    requires in_range { IsShape shape.now }
    requires fits { second < 0x1_0000_0000 / shape.now.factor }
    requires count { length masks.now.items ≡ shape.now.factor }
    ensures { (slice : Slice) → result ≡ carries shape.now (flat_of memory.now) slice
        (event.Evict2 second masks.now bytes.now) }
{
    memory.wide_carries(shape, second, masks, bytes)
}
