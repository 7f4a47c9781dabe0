//! The rules of a port.

use lf_logs::{Incomplete, PortStep, port_replay};
use lf_rules::{Outcome, Rule};
use std::alloc::Global;
use std::process::Abort;
use std::test::Fail;
use trace_samples::{C1, record, records};

const LOAD: &str = "L 0 8@0";

const REPLY: &str = "R 0=0000000000000000";

/// Fails where `port_replay` answers otherwise for these events of a port.
fn assert_port<T: Abort + AllocGlobal>(
    rt: &T,
    events: &[&str],
    answer: Outcome,
) -> Result<(), Fail> {
    let records = records(rt.alloc(), &C1, events)?;
    assert!(rt; records.len() <= 1 << 24);
    assert_eq!(rt; port_replay(&C1, &records), answer);
    Ok(())
}

#[test]
fn tags_of_a_port(rt: HostRuntime) -> Result<(), Fail> {
    let busy = Outcome::Broken(1, Rule::TagBusy);
    assert_port(&rt, &[LOAD, LOAD], busy)?;
    assert_port(&rt, &[LOAD, REPLY, LOAD], Outcome::Passed)?;
    let twice = Outcome::Broken(2, Rule::NotOutstanding);
    assert_port(&rt, &[LOAD, REPLY, REPLY], twice)?;
    let out_of_range = Outcome::Broken(0, Rule::TagRange);
    assert_port(&rt, &["L 4 8@0"], out_of_range)
}

/// What a step of port 0 answers for each of these events.
fn answers(alloc: Global, events: &[&str]) -> Result<Vec<Result<(), Rule>>, Fail> {
    let mut answers = Vec::new(alloc);
    let mut step = PortStep::new(&C1, 0);
    for text in events {
        let item = record(alloc, &C1, 0, 0, 0, text)?;
        answers.push(step.apply(&item))?;
    }
    Ok(answers)
}

/// A record that breaks a rule leaves all as it was.
#[test]
fn tags_of_a_port_as_they_come(rt: HostRuntime) -> Result<(), Fail> {
    let events = [LOAD, LOAD, REPLY, REPLY, LOAD, "L 4 8@0"];
    let told = [
        Ok(()),
        Err(Rule::TagBusy),
        Ok(()),
        Err(Rule::NotOutstanding),
        Ok(()),
        Err(Rule::TagRange),
    ];
    assert_eq!(rt; answers(rt.alloc(), &events)?.as_slice(), told.as_slice());
    Ok(())
}

/// The bank that owes a tag's reply is the one that its issue names, until the reply.
#[test]
fn bank_that_owes_a_reply(rt: HostRuntime) -> Result<(), Fail> {
    let mut step = PortStep::new(&C1, 0);
    let issue = record(rt.alloc(), &C1, 0, 0, 0, LOAD)?;
    assert_eq!(rt; step.apply(&issue), Ok(()));
    assert_eq!(rt; step.owing_bank(0), Some(0));
    assert_eq!(rt; step.owing_bank(1), None);
    let reply = record(rt.alloc(), &C1, 0, 0, 0, REPLY)?;
    assert_eq!(rt; step.apply(&reply), Ok(()));
    assert_eq!(rt; step.owing_bank(0), None);
    Ok(())
}

/// The lowest tag that waits after these events of port 0, and how many wait.
fn waiting_after(alloc: Global, events: &[&str]) -> Result<(Option<u8>, u32), Fail> {
    let mut step = PortStep::new(&C1, 0);
    for text in events {
        let item = record(alloc, &C1, 0, 0, 0, text)?;
        let _ = step.apply(&item);
    }
    Ok((step.lowest_waiting(), step.unanswered()))
}

#[test]
fn tags_that_wait(rt: HostRuntime) -> Result<(), Fail> {
    let events = ["L 3 8@0", "L 2 8@0"];
    assert_eq!(&rt; waiting_after(rt.alloc(), &events)?, (Some(2), 2));
    Ok(())
}

#[test]
fn text_of_an_incomplete_request(rt: HostRuntime) -> Result<(), Fail> {
    let found = Incomplete { port: 2, tag: 13 };
    let text = format!(in rt.alloc(); "{found}")?;
    assert_eq!(rt; text.as_str(), "incomplete port=2 tag=13");
    Ok(())
}
