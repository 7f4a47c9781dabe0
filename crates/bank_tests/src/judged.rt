//! What `replay` answers for the events of one bank.

ghost use Rattle.std.specs.Prelude.{◌≡◌, true};
ghost use Rattle.lf_rules.specs.InRange.{IsShape};
ghost use Rattle.lf_replay.specs.Step.{IsBankOrder};

use lf_replay::replay;
use lf_rules::{Memory, Outcome, Record, Shape, fits};
use std::process::Abort;
use std::test::Fail;
use trace_samples::records;

/// Whether the records are those of the bank, in the order of their numbers.
pub fn is_bank_order(shape: &Shape, bank: u32, records: &[Record]) -> bool
    requires { IsShape shape.now }
    ensures { result ≡ true → IsBankOrder shape.now bank records.now }
{
    for (at, item) in records.iter().enumerate() {
        if !fits(shape.ports, shape.banks, shape.block, shape.factor, item) {
            return false;
        }
        if u32::from(item.bank) != bank || item.number as usize != at {
            return false;
        }
    }
    true
}

/// Fails where `replay` answers otherwise for the events.
pub fn assert_judged_on<T: Abort + AllocGlobal>(
    rt: &T,
    shape: &Shape,
    memory: &Memory,
    parts: &[&str],
    answer: Outcome,
) -> Result<(), Fail>
    requires { IsShape shape.now }
{
    let records = records(rt.alloc(), shape, parts)?;
    if !is_bank_order(shape, 0, &records) {
        return Err(Fail::from("these are no records of the bank"));
    }
    assert_eq!(rt; replay(rt.alloc(), shape, memory, 0, &records), answer);
    Ok(())
}

/// Asserts the answer over a memory of zeros.
pub fn assert_judged<T: Abort + AllocGlobal>(
    rt: &T,
    shape: &Shape,
    parts: &[&str],
    answer: Outcome,
) -> Result<(), Fail>
    requires { IsShape shape.now }
{
    assert_judged_on(rt, shape, &Vec::new(rt.alloc()), parts, answer)
}
