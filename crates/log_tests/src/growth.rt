//! What is told, and what is left, where a growth is refused. A test ends well with the answer that is
//! due, and with `memory_ran_out` where that was told and what was left was right.

ghost use Rattle.std.specs.Prelude.{◌≡◌, IfSome};

use crate::rechecks::are_sound;
use crate::recording::{load, take_seat};
use crate::statistics::{THREE, counted};
use lf_config::{ConfigFault, read};
use lf_model::{Logs, Recheck, Rule, recheck};
use lf_recorder::{CloseFault, Desk, LogSeat, OpenFault, RecordFault};
use lf_stats::BankStats;
use std::process::Abort;
use std::test::Fail;
use trace_samples::{C1, C1_TEXT, LOAD, LOADED, logs, memory_ran_out, records};

#[test]
fn refused_growth_of_read(rt: HostRuntime) -> Result<(), Fail> {
    match read(rt.alloc(), C1_TEXT) {
        Err(ConfigFault::NoMemory) => Err(memory_ran_out()),
        answer => {
            assert!(rt; answer == Ok(C1));
            Ok(())
        }
    }
}

fn assert_rechecked<T: Abort + AllocGlobal>(
    rt: &T,
    logs: &Logs,
    order: &[u8],
    due: Recheck,
) -> Result<(), Fail> {
    let memory = Vec::new(rt.alloc());
    assert!(rt; are_sound(&C1, logs));
    match recheck(rt.alloc(), &C1, &memory, logs, order) {
        Ok(answer) => {
            assert!(rt; answer == due);
            Ok(())
        }
        Err(_) => Err(memory_ran_out()),
    }
}

#[test]
fn refused_growth_of_recheck(rt: HostRuntime) -> Result<(), Fail> {
    let right = records(rt.alloc(), &C1, &[LOAD, LOADED])?;
    let right = logs(rt.alloc(), 2, right)?;
    let wrong = records(rt.alloc(), &C1, &[LOAD, "R 0=0100000000000000"])?;
    let wrong = logs(rt.alloc(), 2, wrong)?;
    let order = [0, 1, 1, 1, 1, 0];
    assert_rechecked(&rt, &right, &order, Recheck::Accepted)?;
    assert_rechecked(&rt, &right, &[1, 0, 1, 1, 1, 0], Recheck::NotAnOrder(0))?;
    assert_rechecked(&rt, &right, &[0, 1], Recheck::NotAnOrder(2))?;
    assert_rechecked(&rt, &wrong, &order, Recheck::Broken(5, Rule::ReplyData))
}

/// The counts of the three examples, in their order: hits, primary misses, merges, stalls and the most
/// registers held at once, and the tags without a reply.
const THREE_COUNTS: [([u32; 5], u32); 3] = [
    ([0, 1, 1, 0, 1], 0),
    ([0, 1, 1, 1, 1], 3),
    ([0, 1, 1, 0, 2], 2),
];

#[test]
fn refused_growth_of_stats(rt: HostRuntime) -> Result<(), Fail> {
    for ((events, _), ([hits, primary, merges, stalls, peak], unanswered)) in THREE
        .into_iter()
        .zip(THREE_COUNTS)
    {
        let Some(stats) = counted(rt.alloc(), &[events])? else {
            return Err(memory_ran_out());
        };
        let bank = BankStats {
            hits,
            primary,
            merges,
            stalls,
            peak,
        };
        assert!(rt; stats.banks.as_slice() == [bank].as_slice());
        assert!(rt; stats.unanswered.as_slice() == [unanswered].as_slice());
    }
    Ok(())
}

// Records ten events of bank 0, each with its number. One that is refused since memory ran out is recorded
// again, as if it had not been.
fn record_ten(desk: &Desk, seat: LogSeat, is_told: &mut bool) -> Option<LogSeat>
    requires { seat.desk ≡ desk.now.desk }
    ensures { IfSome result (λ s. s.desk ≡ desk.now.desk) }
{
    let mut seat = seat;
    for number in 0..10u32 {
        let answer = match desk.record(&mut seat, 0, load(0)) {
            Err(RecordFault::NoMemory) => {
                *is_told = true;
                desk.record(&mut seat, 0, load(0))
            }
            answer => answer,
        };
        if answer != Ok(number) {
            return None;
        }
    }
    Some(seat)
}

// The seats of a desk that is opened, and then closed, again where that was refused.
#[test]
fn refused_growth_of_ten_events(rt: HostRuntime) -> Result<(), Fail> {
    let Ok(mut desk) = Desk::new(rt.alloc(), 1, 1) else {
        return Err(memory_ran_out());
    };
    let mut is_told = false;
    let opened = match desk.open() {
        Err(OpenFault::NoMemory) => {
            is_told = true;
            desk.open()
        }
        opened => opened,
    };
    let mut seats = opened.ok().expect(&rt, "one growth is refused at most");
    let bank = take_seat(&desk, &mut seats).expect(&rt, "log 1 has a seat");
    let port = take_seat(&desk, &mut seats).expect(&rt, "log 0 has a seat");
    let port = record_ten(&desk, port, &mut is_told).expect(&rt, "each number follows");
    if seats.push(port).is_err() || seats.push(bank).is_err() {
        return Err(Fail::new("the seats have their room"));
    }
    let closed = match desk.close(seats) {
        Err(CloseFault::NoMemory(desk, seats)) => {
            is_told = true;
            desk.close(seats)
        }
        closed => closed,
    };
    let logs = closed.ok().expect(&rt, "each log has a seat");
    assert_eq!(rt; logs.first().map(|log| log.len()), Some(10));
    if is_told {
        Err(memory_ran_out())
    } else {
        Ok(())
    }
}
