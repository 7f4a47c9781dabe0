//! Orders that `recheck` accepts, and those that it does not.

ghost use Rattle.std.specs.Prelude.{◌≡◌, ◌≤◌, ◌^◌, IsTrue, length};
ghost use Rattle.std.specs.List.{All};
ghost use Rattle.lf_rules.specs.Fits.{Fits};
ghost use Rattle.lf_rules.specs.InRange.{IsShape};
ghost use Rattle.lf_model.specs.Recheck.{lists_of};
ghost use Rattle.lf_rules.specs.Run.{NameTheirLogs};

use lf_model::{Logs, Recheck, Record, Rule, Shape, fits, recheck};
use std::process::Abort;
use std::test::Fail;
use trace_samples::{C1, LOAD, LOADED, logs, records};

fn log_is_sound(shape: &Shape, log: usize, records: &[Record]) -> bool
    requires { IsShape shape.now }
    ensures fits { IsTrue result → All (Fits shape.now) records.now }
    ensures named { IsTrue result → All (λ r. r.log ≡ log) records.now }
{
    for item in records {
        if usize::from(item.log) != log
            || !fits(shape.ports, shape.banks, shape.block, shape.factor, item)
        {
            return false;
        }
    }
    true
}

pub fn are_sound(shape: &Shape, logs: &Logs) -> bool
    requires { IsShape shape.now }
    ensures few { IsTrue result → length logs.now.items ≤ 32 }
    ensures short { IsTrue result → All (λ log. length log.items ≤ 2 ^ 24) logs.now.items }
    ensures named { IsTrue result → NameTheirLogs (lists_of logs.now) }
    ensures fits { IsTrue result → All (λ log. All (Fits shape.now) log.items) logs.now.items }
{
    for (number, log) in logs.iter().enumerate() {
        if log.len() > 1 << 20 || !log_is_sound(shape, number, log) {
            return false;
        }
    }
    logs.len() <= 32
}

/// Fails where `recheck` answers otherwise for the logs of these events in this order.
fn assert_rechecked<T: Abort + AllocGlobal>(
    rt: &T,
    parts: &[&str],
    order: &[u8],
    answer: Recheck,
) -> Result<(), Fail> {
    let records = records(rt.alloc(), &C1, parts)?;
    let logs = logs(rt.alloc(), 2, records)?;
    let memory = Vec::new(rt.alloc());
    assert!(rt; are_sound(&C1, &logs));
    assert!(rt; recheck(rt.alloc(), &C1, &memory, &logs, order) == Ok(answer));
    Ok(())
}

#[test]
fn recheck_orders(rt: HostRuntime) -> Result<(), Fail> {
    let load = [LOAD, LOADED];
    let order = [0, 1, 1, 1, 1, 0];
    assert_rechecked(&rt, &load, &order, Recheck::Accepted)?;
    assert_rechecked(&rt, &load, &[1, 0, 1, 1, 1, 0], Recheck::NotAnOrder(0))?;
    assert_rechecked(&rt, &load, &[0, 1], Recheck::NotAnOrder(2))?;
    let wrong = [LOAD, "R 0=0100000000000000"];
    let broken = Recheck::Broken(5, Rule::ReplyData);
    assert_rechecked(&rt, &wrong, &order, broken)
}
