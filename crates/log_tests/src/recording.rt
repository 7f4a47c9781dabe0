ghost use Rattle.std.specs.Prelude.{◌≡◌, All, IfOk, IfSome};

use lf_recorder::{CloseFault, Desk, LogSeat, OpenFault, RecordFault};
use lf_rules::{Block, Event, Logs, NO_BANK, Op};
use std::alloc::AllocError;
use std::process::Abort;
use std::test::Fail;
use std::thread;
use std::thread::Threads;

pub fn load(address: u64) -> Event {
    Event::Issue {
        op: Op::Load,
        tag: 0,
        size: 8,
        address,
        bytes: Block::new(),
    }
}

// The seat of the highest log that is left.
pub fn take_seat(desk: &Desk, seats: &mut Vec<LogSeat>) -> Option<LogSeat>
    requires { All (λ s. s.desk ≡ desk.now.desk) seats.old.items }
    ensures taken { IfSome result (λ s. s.desk ≡ desk.now.desk) }
    ensures left { All (λ s. s.desk ≡ desk.now.desk) seats.new.items }
{
    let _ = desk;
    seats.pop()
}

// Records this many events in a port's log, to the banks 0 and 1 in turn.
fn record_all(desk: &Desk, seat: LogSeat, ports: u8, count: u32) -> LogSeat
    requires { seat.desk ≡ desk.now.desk }
    ensures { result.desk ≡ desk.now.desk }
{
    let mut seat = seat;
    if seat.log() < ports {
        for i in 0..count {
            let _ = desk.record(&mut seat, (i % 2) as u8, load(u64::from(i)));
        }
    }
    seat
}

// The same, and a fence behind them.
fn record_all_and_a_fence(desk: &Desk, seat: LogSeat, ports: u8, count: u32) -> LogSeat
    requires { seat.desk ≡ desk.now.desk }
    ensures { result.desk ≡ desk.now.desk }
{
    let mut seat = record_all(desk, seat, ports, count);
    let _ = desk.record(&mut seat, NO_BANK, Event::Fence);
    seat
}

// A thread for each seat, so one for each of the two ports that record.
fn record_each<R: Threads + Sync>(
    rt: &R,
    desk: &Desk,
    seats: Vec<LogSeat>,
    ports: u8,
    count: u32,
) -> Result<Vec<LogSeat>, AllocError>
    requires { All (λ s. s.desk ≡ desk.now.desk) seats.items }
    ensures { IfOk result (λ v. All (λ s. s.desk ≡ desk.now.desk) v.items) }
{
    thread::map_vec(rt, seats, &move |seat| record_all(desk, seat, ports, count))
}

// The same, each with a fence behind them.
fn record_each_and_a_fence<R: Threads + Sync>(
    rt: &R,
    desk: &Desk,
    seats: Vec<LogSeat>,
    ports: u8,
    count: u32,
) -> Result<Vec<LogSeat>, AllocError>
    requires { All (λ s. s.desk ≡ desk.now.desk) seats.items }
    ensures { IfOk result (λ v. All (λ s. s.desk ≡ desk.now.desk) v.items) }
{
    thread::map_vec(
        rt,
        seats,
        &move |seat| record_all_and_a_fence(desk, seat, ports, count),
    )
}

// Fails unless each of the two ports has so many records, and each bank has each number from 0 to 999.
fn assert_collected(rt: &impl Abort, logs: &Logs, each: usize) {
    assert_eq!(rt; logs.len(), 4);
    for (log, count) in [(0usize, each), (1, each), (2, 0), (3, 0)] {
        if log < logs.len() {
            assert_eq!(rt; logs[log].len(), count);
        }
    }
    let mut seen = [[0u32; 1000]; 2];
    for log in logs {
        for item in log {
            if item.event != Event::Fence {
                let bank = usize::from(item.bank);
                let number = item.number as usize;
                assert!(rt; bank < 2 && number < 1000);
                seen[bank][number] = 1;
            }
        }
    }
    for bank in 0..2usize {
        for number in 0..1000usize {
            assert_eq!(rt; seen[bank][number], 1, "number {number} of bank {bank}");
        }
    }
}

#[test]
fn recorder_two_threads(rt: HostRuntime) -> Result<(), Fail> {
    let mut desk = Desk::new(rt.alloc(), 2, 2)
        .ok()
        .expect(&rt, "there is memory");
    let seats = desk.open().ok().expect(&rt, "it is opened once");
    let seats = record_each(&rt, &desk, seats, 2, 1000)?;
    assert!(rt; matches!(desk.open(), Err(OpenFault::Opened)));
    let logs = desk.close(seats).ok().expect(&rt, "each log has a seat");
    assert_collected(&rt, &logs, 1000);
    Ok(())
}

// A fence draws no number: the banks' numbers are as without it.
#[test]
fn recorder_two_threads_with_fences(rt: HostRuntime) -> Result<(), Fail> {
    let mut desk = Desk::new_version(rt.alloc(), 2, 2, 2)
        .ok()
        .expect(&rt, "there is memory");
    let seats = desk.open().ok().expect(&rt, "it is opened once");
    let seats = record_each_and_a_fence(&rt, &desk, seats, 2, 1000)?;
    let logs = desk.close(seats).ok().expect(&rt, "each log has a seat");
    assert_collected(&rt, &logs, 1001);
    Ok(())
}

#[test]
fn recorder_two_threads_without_a_seat(rt: HostRuntime) {
    let mut desk = Desk::new(rt.alloc(), 2, 2)
        .ok()
        .expect(&rt, "there is memory");
    let mut seats = desk.open().ok().expect(&rt, "it is opened once");
    let last = take_seat(&desk, &mut seats);
    assert!(rt; last.is_some());
    let Err(CloseFault::Missing(log, desk, seats)) = desk.close(seats) else {
        assert!(rt; false, "log 3 has no seat");
        return;
    };
    assert_eq!(rt; log, 3);
    assert_eq!(rt; seats.len(), 3);
    assert!(rt; matches!(desk.close(seats), Err(CloseFault::Missing(3, _, _))));
}

#[test]
fn recorder_limits(rt: HostRuntime) {
    let mut desk = Desk::new(rt.alloc(), 2, 2)
        .ok()
        .expect(&rt, "there is memory");
    let mut seats = desk.open().ok().expect(&rt, "it is opened once");
    let mut bank = take_seat(&desk, &mut seats).expect(&rt, "log 3 has a seat");
    let _ = take_seat(&desk, &mut seats);
    let mut other = take_seat(&desk, &mut seats).expect(&rt, "log 1 has a seat");
    let full = take_seat(&desk, &mut seats).expect(&rt, "log 0 has a seat");
    let mut full = record_all(&desk, full, 2, 1 << 20);
    assert_eq!(rt;
        desk.record(&mut full, 0, load(0)),
        Err(RecordFault::LogFull)
    );
    assert_eq!(rt; desk.record(&mut other, 0, load(0)), Ok(1 << 19));
    assert_eq!(rt;
        desk.record(&mut other, 2, load(0)),
        Err(RecordFault::BankRange)
    );
    assert_eq!(rt;
        desk.record(&mut bank, 1, load(0)),
        Err(RecordFault::LogKind)
    );
    let hit = Event::Hit { port: 0, tag: 0 };
    assert_eq!(rt; desk.record(&mut bank, 0, hit), Err(RecordFault::BankRange));
}

// A lock round the desk would need a handle to wait by, which `record` does not take: here it is
// called from two threads at once by a closure that has none.
#[test]
fn lock_round_the_desk(rt: HostRuntime) -> Result<(), Fail> {
    let mut desk = Desk::new(rt.alloc(), 2, 1)
        .ok()
        .expect(&rt, "there is memory");
    let seats = desk.open().ok().expect(&rt, "it is opened once");
    let desk = &desk;
    let seats = thread::map_vec(
        &rt,
        seats,
        &move |mut seat: LogSeat| -> LogSeat
            requires { seat.desk ≡ desk.now.desk }
        {
            let _ = desk.record(&mut seat, 0, load(0));
            seat
        },
    )?;
    assert_eq!(rt; seats.len(), 3);
    Ok(())
}
