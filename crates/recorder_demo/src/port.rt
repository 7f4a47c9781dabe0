//! The turns of a port's thread.

ghost use Rattle.std.specs.Prelude.{◌≡◌, ◌+◌, ◌*◌, ◌%◌, ◌<◌, if◌then◌else◌, replicate, IfOk, OnOk};
ghost use Rattle.recorder_demo.specs.Demo.{op_of, block_of, issue_of, IsPortLog};
ghost use Rattle.recorder_demo.specs.Threads.{Counts, IsNew};

use crate::fault::DemoFault;
use crate::recording::Recording;
use crate::request::{Reply, Request, WORD};
use arrayvec::ArrayVec;
use lf_recorder::LogSeat;
use lf_rules::{Block, Event, NO_BANK, Op, Shape};
use std::sync::Wait;
use std::sync::atomic::Ordering;
use std::thread::yield_now;

/// The requests of a port.
const REQUESTS: u32 = 64;

/// How far a port has come.
#[derive(Drop)]
pub struct Port {
    number: u8,
    issued: u32,
    replied: u32,
    /// The tags whose reply has not come.
    busy: ArrayVec<u8, 64>,
}

/// The port's request of this number: loads and stores in turn, of one block after the other.
fn request(recording: &Recording, port: u8, i: u32) -> Request
    requires { i < 64 }
    ensures port { result.port ≡ port }
    ensures tag { result.tag ≡ i % recording.now.places.shape.tags }
    ensures op { result.op ≡ op_of i }
    ensures block { result.block ≡ block_of recording.now.places.shape port i }
    ensures bytes { result.bytes ≡ replicate 8 i }
{
    let shape = recording.places.shape;
    Request {
        port,
        tag: (i % shape.tags) as u8,
        op: if i % 2 == 0 { Op::Load } else { Op::Store },
        block: (u32::from(port) + i) % (4 * shape.banks),
        bytes: [i as u8; 8],
    }
}

/// The request as it is recorded.
fn issue_of(shape: &Shape, request: &Request) -> Event
    ensures { result ≡ issue_of shape.now request.now.op request.now.tag request.now.block request.now.bytes }
{
    let mut bytes = Block::new();
    if request.op == Op::Store {
        let _ = bytes.try_extend_from_slice(&request.bytes);
    }
    Event::Issue {
        op: request.op,
        tag: request.tag,
        size: WORD,
        address: u64::from(request.block) * u64::from(shape.block),
        bytes,
    }
}

/// Records a port's requests and replies, and a fence behind the last.
pub fn run_port<R: Wait>(rt: &R, recording: &Recording, seat: &mut LogSeat) -> Result<(), DemoFault>
    requires { IsNew recording.now.desk seat.old }
    ensures own { seat.new.desk ≡ recording.now.desk.desk }
    ensures whole { OnOk result (IsPortLog recording.now.places.shape seat.new.log seat.new.records) }
{
    let mut port = Port {
        number: seat.log(),
        issued: 0,
        replied: 0,
        busy: ArrayVec::new(),
    };
    'events: while port.replied < REQUESTS {
        next_event(rt, recording, &mut port, seat)?;
    }
    recording.desk.record(seat, NO_BANK, Event::Fence)?;
    recording.finished.fetch_add(1, Ordering::SeqCst);
    Ok(())
}

/// Makes turns until one has an event.
fn next_event<R: Wait>(
    rt: &R,
    recording: &Recording,
    port: &mut Port,
    seat: &mut LogSeat,
) -> Result<(), DemoFault>
    requires own { seat.old.desk ≡ recording.now.desk.desk }
    requires counts { Counts recording.now.places.shape port.old seat.old }
    ensures own { seat.new.desk ≡ recording.now.desk.desk }
    ensures counts { OnOk result (Counts recording.now.places.shape port.new seat.new) }
    ensures one { OnOk result (port.new.issued + port.new.replied ≡ port.old.issued + port.old.replied + 1) }
{
    'turns: for _ in 0..recording.turns {
        if recording.is_given_up() {
            break;
        }
        if issue(rt, recording, port, seat)? {
            return Ok(());
        }
        if take_reply(rt, recording, port, seat)? {
            return Ok(());
        }
        yield_now();
    }
    Err(DemoFault::Turns)
}

/// Records the next request, if its tag is free.
fn issue<R: Wait>(
    rt: &R,
    recording: &Recording,
    port: &mut Port,
    seat: &mut LogSeat,
) -> Result<bool, DemoFault>
    requires own { seat.old.desk ≡ recording.now.desk.desk }
    requires counts { Counts recording.now.places.shape port.old seat.old }
    ensures own { seat.new.desk ≡ recording.now.desk.desk }
    ensures counts { OnOk result (Counts recording.now.places.shape port.new seat.new) }
    ensures one { IfOk result (λ done. port.new.issued + port.new.replied ≡ port.old.issued + port.old.replied
        + (if done then 1 else 0)) }
{
    if port.issued == REQUESTS {
        return Ok(false);
    }
    let request = request(recording, port.number, port.issued);
    if port.busy.contains(&request.tag) {
        return Ok(false);
    }
    let bank = recording.places.bank_of(request.block);
    let Some(cache) = recording.banks.get(usize::from(bank)) else {
        return Ok(false);
    };
    let mut cache = cache.lock(rt);
    cache.issue(request)?;
    let event = issue_of(&recording.places.shape, &request);
    recording.desk.record(seat, bank, event)?;
    port.issued += 1;
    let _ = port.busy.try_push(request.tag);
    Ok(true)
}

/// Records a reply that is ready, if there is one.
fn take_reply<R: Wait>(
    rt: &R,
    recording: &Recording,
    port: &mut Port,
    seat: &mut LogSeat,
) -> Result<bool, DemoFault>
    requires own { seat.old.desk ≡ recording.now.desk.desk }
    requires counts { Counts recording.now.places.shape port.old seat.old }
    ensures own { seat.new.desk ≡ recording.now.desk.desk }
    ensures counts { OnOk result (Counts recording.now.places.shape port.new seat.new) }
    ensures one { IfOk result (λ done. port.new.issued + port.new.replied ≡ port.old.issued + port.old.replied
        + (if done then 1 else 0)) }
{
    for bank in 0..recording.places.shape.banks {
        if take_reply_of(rt, recording, port, seat, bank as u8)? {
            return Ok(true);
        }
    }
    Ok(false)
}

/// Takes a reply of one bank, where one is ready.
fn take_reply_of<R: Wait>(
    rt: &R,
    recording: &Recording,
    port: &mut Port,
    seat: &mut LogSeat,
    bank: u8,
) -> Result<bool, DemoFault>
    requires own { seat.old.desk ≡ recording.now.desk.desk }
    requires counts { Counts recording.now.places.shape port.old seat.old }
    ensures own { seat.new.desk ≡ recording.now.desk.desk }
    ensures counts { OnOk result (Counts recording.now.places.shape port.new seat.new) }
    ensures one { IfOk result (λ done. port.new.issued + port.new.replied ≡ port.old.issued + port.old.replied
        + (if done then 1 else 0)) }
{
    if port.replied == port.issued {
        return Ok(false);
    }
    let Some(cache) = recording.banks.get(usize::from(bank)) else {
        return Ok(false);
    };
    let mut cache = cache.lock(rt);
    let Some(
        Reply {
            port: _,
            tag,
            bytes,
        },
    ) = cache.reply(port.number)
    else {
        return Ok(false);
    };
    let size = bytes.len() as u8;
    recording
        .desk
        .record(seat, bank, Event::Reply { tag, size, bytes })?;
    port.replied += 1;
    port.busy.retain(|busy| *busy != tag);
    Ok(true)
}
