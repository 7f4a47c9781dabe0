//! What a run keeps beside its lines and registers: memory, the queue of a port, ready replies.

use bank_state::{
    Data, FlatMemory, Ready, Request, asker_of, drop_head, drop_ready, empty_queues, enqueue, head,
    push, ready_at, ready_for,
};
use lf_rules::{Block, Mask, Op};
use std::alloc::Global;
use std::process::Abort;
use std::test::Fail;
use trace_samples::{C1, TWO_PORTS_TWO_BANKS, block, memory, memory_ran_out};

/// A memory with these blocks.
fn memory_of(alloc: Global, named: &[(u32, Block)]) -> Result<FlatMemory, Fail> {
    let Ok(flat) = FlatMemory::new(alloc, named) else {
        return Err(memory_ran_out());
    };
    Ok(flat)
}

/// The part of bank 1 of two.
fn part_of(alloc: Global, named: &[(u32, Block)]) -> Result<FlatMemory, Fail> {
    let Ok(flat) = FlatMemory::of_bank(alloc, named, &TWO_PORTS_TWO_BANKS, 1) else {
        return Err(memory_ran_out());
    };
    Ok(flat)
}

/// Has the memory accept a request.
fn accept(flat: &mut FlatMemory, request: &Request) -> Result<(), Fail> {
    let Ok(()) = flat.accept(request) else {
        return Err(memory_ran_out());
    };
    Ok(())
}

/// Fails unless block 0 and block 1 have these bytes in the second place.
fn assert_second_bytes(rt: &impl Abort, flat: &FlatMemory, first: u8, second: u8) {
    assert_eq!(rt; flat.bytes_of(0)[1], first);
    assert_eq!(rt; flat.bytes_of(1)[1], second);
}

/// Block 0 is of bank 0, and block 1 of bank 1.
#[test]
fn a_bank_has_its_own_blocks(rt: HostRuntime) -> Result<(), Fail> {
    let named = memory(
        rt.alloc(),
        &[(0, "0011223344556677"), (1, "8899aabbccddeeff")],
    )?;
    assert_second_bytes(&rt, &memory_of(rt.alloc(), &named)?, 0x11, 0x99);
    assert_second_bytes(&rt, &part_of(rt.alloc(), &named)?, 0, 0x99);
    Ok(())
}

/// Fails unless a load of the first four bytes of block 1 finds these, which are this number.
fn assert_load(rt: &impl Abort, flat: &FlatMemory, bytes: [u8; 4], number: u64) {
    let load = Request::of_issue(&C1, Op::Load, 1, 4, 8, &[]);
    assert_eq!(rt; flat.value_of(&load).as_slice(), bytes.as_slice());
    assert_eq!(rt; flat.number_of(&load) & 0xffff_ffff, number);
}

/// Fails unless a store finds nothing, and is of the bytes of this mask.
fn assert_store(rt: &impl Abort, flat: &FlatMemory, store: &Request, mask: u64) {
    assert_eq!(rt; flat.value_of(store).len(), 0);
    assert_eq!(rt; store.store_mask(), mask);
}

#[test]
fn a_load_finds_what_a_store_wrote(rt: HostRuntime) -> Result<(), Fail> {
    let mut flat = memory_of(rt.alloc(), &[])?;
    let store = Request::of_issue(&C1, Op::Store, 0, 2, 10, &[7, 9]);
    accept(&mut flat, &store)?;
    assert_load(&rt, &flat, [0, 0, 7, 9], 0x0907_0000);
    assert_store(&rt, &flat, &store, 0b1100);
    Ok(())
}

#[test]
fn a_block_carries_its_dirty_bytes(rt: HostRuntime) -> Result<(), Fail> {
    let named = memory(rt.alloc(), &[(0, "0011223344556677")])?;
    let flat = memory_of(rt.alloc(), &named)?;
    for (mask, bytes, carried) in [(0b110, "1122", true), (0b110, "1133", false)] {
        assert_eq!(rt; flat.carries(&C1, 0, Mask(mask), &block(bytes)), carried);
    }
    Ok(())
}

#[test]
fn a_queue_gives_its_oldest_request(rt: HostRuntime) -> Result<(), Fail> {
    let mut queues = empty_queues(rt.alloc(), 1).ok().ok_or("no memory")?;
    for tag in [3, 2] {
        let load = Request::of_issue(&C1, Op::Load, tag, 4, 8, &[]);
        enqueue(&mut queues, 0, load).ok().ok_or("no memory")?;
    }
    assert_eq!(rt; head(&queues, 0, 3).map(|request| request.block()), Some(1));
    drop_head(&mut queues, 0);
    assert!(rt; head(&queues, 0, 3).is_none());
    Ok(())
}

#[test]
fn a_reply_leaves_once(rt: HostRuntime) -> Result<(), Fail> {
    let mut ready = Vec::new(rt.alloc());
    for port in [0, 1] {
        push(&mut ready, Ready::new(port, 5, Data::new()))
            .ok()
            .ok_or("no memory")?;
    }
    assert_eq!(rt;
        ready_for(&ready, 1, 5).map(|reply| reply.value().len()),
        Some(0)
    );
    assert_eq!(rt; ready_at(&ready, 1, 5), Some(1));
    drop_ready(&mut ready, 1, 5);
    assert!(rt; ready_for(&ready, 1, 5).is_none());
    Ok(())
}

#[test]
fn an_asked_block_has_its_register(rt: HostRuntime) {
    let asked = [(7, 3), (8, 1)];
    assert_eq!(rt; asker_of(&asked, 8), Some(1));
    assert_eq!(rt; asker_of(&asked, 9), None);
}
