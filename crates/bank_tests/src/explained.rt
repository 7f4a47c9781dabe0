//! What is told of the first event of a bank that breaks a rule.

ghost use Rattle.lf_rules.specs.InRange.{IsShape};

use crate::judged::is_bank_order;
use explain_history::{packed, places_in_order};
use explain_replay::{Broken, Expected, first_broken};
use lf_rules::{Rule, Shape};
use std::alloc::Global;
use std::test::Fail;
use trace_samples::{C1, LOAD, memory_ran_out, records};

/// What is told of the events of bank 0.
fn told(alloc: Global, shape: &Shape, parts: &[&str]) -> Result<Option<Broken>, Fail>
    requires { IsShape shape.now }
{
    let records = records(alloc, shape, parts)?;
    if !is_bank_order(shape, 0, &records) {
        return Err(Fail::from("these are no records of the bank"));
    }
    let Ok(packed) = packed(alloc, &records) else {
        return Err(memory_ran_out());
    };
    let Ok(places) = places_in_order(alloc, &packed, 0, packed.len()) else {
        return Err(memory_ran_out());
    };
    match first_broken(alloc, shape, &Vec::new(alloc), 0, &packed, &places) {
        Ok(told) => Ok(told),
        Err(_) => Err(memory_ran_out()),
    }
}

/// The reply that was ready is told beside a wrong one.
#[test]
fn value_of_a_wrong_reply(rt: HostRuntime) -> Result<(), Fail> {
    let Some(told) = told(rt.alloc(), &C1, &[LOAD, "R 0=0100000000000000"])? else {
        return Err(Fail::from("nothing is told"));
    };
    assert_eq!(rt; (told.number, told.rule), (5, Rule::ReplyData));
    let Some(Expected::Bytes(bytes)) = &told.expected else {
        return Err(Fail::from("no bytes are told"));
    };
    assert_eq!(rt; bytes.as_slice(), [0; 8].as_slice());
    Ok(())
}

/// Of two requests with one tag the head of the queue has the block that is told.
#[test]
fn block_of_the_head(rt: HostRuntime) -> Result<(), Fail> {
    let Some(told) = told(rt.alloc(), &C1, &["L 0 8@0, L 0 8@8, M 0 0"])? else {
        return Err(Fail::from("nothing is told"));
    };
    assert_eq!(rt; (told.number, told.rule), (2, Rule::NotInFlight));
    let Some(named) = told.blocks.first() else {
        return Err(Fail::from("no block is told"));
    };
    assert_eq!(rt; named.block, 0);
    Ok(())
}
