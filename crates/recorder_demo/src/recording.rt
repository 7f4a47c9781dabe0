//! What the threads share, and the turns of a bank's thread.

ghost use Rattle.std.specs.Prelude.{◌≡◌, IfOk};
ghost use Rattle.lf_rules.specs.InRange.{IsShape};
ghost use Rattle.recorder_demo.specs.Threads.{IsNew, IsGivenBack};

use crate::cache::BankCache;
use crate::fault::DemoFault;
use crate::places::Places;
use crate::port::run_port;
use lf_recorder::{Desk, LogSeat};
use lf_rules::Shape;
use std::alloc::Global;
use std::sync::atomic::{AtomicBool, AtomicU32, Ordering};
use std::sync::{Mutex, Wait};
use std::thread::yield_now;

/// The design in its locks, and the desk that records it.
#[derive(Drop)]
pub struct Recording {
    pub desk: Desk,
    pub places: Places,
    pub banks: Vec<Mutex<BankCache>>,
    /// How many ports have recorded their fence.
    pub finished: AtomicU32,
    /// Whether a thread gave up. Then all do.
    pub has_given_up: AtomicBool,
    pub turns: u32,
}

/// What a thread gives back.
#[derive(Drop)]
pub struct Recorded {
    pub seat: LogSeat,
    pub outcome: Result<(), DemoFault>,
}

impl Recording {
    pub fn new(alloc: Global, desk: Desk, shape: &Shape, turns: u32) -> Result<Recording, DemoFault>
        requires { IsShape shape.now }
        ensures { IfOk result (λ r. (r.desk ≡ desk) × (r.places.shape ≡ shape.now)) }
    {
        let blocks = 4 * shape.banks;
        let mut banks = Vec::new(alloc);
        for bank in 0..shape.banks as u8 {
            banks.push(Mutex::new(BankCache::new(alloc, shape, bank, blocks)?))?;
        }
        Ok(Recording {
            desk,
            places: Places::new(shape),
            banks,
            finished: AtomicU32::new(0),
            has_given_up: AtomicBool::new(false),
            turns,
        })
    }

    pub fn give_up(&self) {
        self.has_given_up.store(true, Ordering::SeqCst);
    }

    pub fn is_given_up(&self) -> bool {
        self.has_given_up.load(Ordering::SeqCst)
    }
}

/// What the thread of a seat does: that of a port, or that of a bank.
pub fn work<R: Wait>(rt: &R, recording: &Recording, seat: LogSeat) -> Recorded
    requires { IsNew recording.now.desk seat }
    ensures { IsGivenBack recording.now.places.shape recording.now.desk result }
{
    let mut seat = seat;
    let ports = recording.places.shape.ports as u8;
    let outcome = match seat.log().checked_sub(ports) {
        None => run_port(rt, recording, &mut seat),
        Some(bank) => run_bank(rt, recording, &mut seat, bank),
    };
    if outcome.is_err() {
        recording.give_up();
    }
    Recorded { seat, outcome }
}

/// Records what a bank does until all ports have finished.
fn run_bank<R: Wait>(
    rt: &R,
    recording: &Recording,
    seat: &mut LogSeat,
    bank: u8,
) -> Result<(), DemoFault>
    requires { seat.old.desk ≡ recording.now.desk.desk }
    ensures own { seat.new.desk ≡ recording.now.desk.desk }
    ensures log { seat.new.log ≡ seat.old.log }
{
    'events: for _ in rt.forever() {
        if !next_event(rt, recording, seat, bank)? {
            return Ok(());
        }
    }
    unreachable!()
}

/// Makes turns until one has an event, or all ports have finished, which is `false`.
fn next_event<R: Wait>(
    rt: &R,
    recording: &Recording,
    seat: &mut LogSeat,
    bank: u8,
) -> Result<bool, DemoFault>
    requires { seat.old.desk ≡ recording.now.desk.desk }
    ensures own { seat.new.desk ≡ recording.now.desk.desk }
    ensures log { seat.new.log ≡ seat.old.log }
{
    'turns: for _ in 0..recording.turns {
        if recording.is_given_up() {
            break;
        }
        if turn(rt, recording, seat, bank)? {
            return Ok(true);
        }
        if recording.finished.load(Ordering::SeqCst) == recording.places.shape.ports {
            return Ok(false);
        }
        yield_now();
    }
    Err(DemoFault::Turns)
}

/// Records the next event of the bank, if one can happen.
fn turn<R: Wait>(
    rt: &R,
    recording: &Recording,
    seat: &mut LogSeat,
    bank: u8,
) -> Result<bool, DemoFault>
    requires { seat.old.desk ≡ recording.now.desk.desk }
    ensures own { seat.new.desk ≡ recording.now.desk.desk }
    ensures log { seat.new.log ≡ seat.old.log }
{
    let Some(cache) = recording.banks.get(usize::from(bank)) else {
        return Ok(false);
    };
    let mut cache = cache.lock(rt);
    let Some(event) = cache.step()? else {
        return Ok(false);
    };
    recording.desk.record(seat, bank, event)?;
    Ok(true)
}
