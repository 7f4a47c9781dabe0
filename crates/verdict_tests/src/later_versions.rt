//! Worked examples of versions 2 and 3.

use crate::verdicts::{assert_verdict, format_fault, port_fault, yes};
use lf_codec::CodecCause;
use lf_rules::Rule;
use lf_verdict::{HeaderField, Refusal, Verdict};
use std::alloc::Global;
use std::test::Fail;
use trace_samples::{C1, C2, LOAD, LOADED, records, trace};

/// These events of port 0 and bank 0 as a trace of version 2.
fn second_version(alloc: Global, parts: &[&str]) -> Result<Vec<u8>, Fail> {
    let records = records(alloc, &C1, parts)?;
    Ok(trace(alloc, 2, &C1, &Vec::new(alloc), &records)?)
}

#[test]
fn fence_elsewhere(rt: HostRuntime) -> Result<(), Fail> {
    let first = second_version(rt.alloc(), &["F", LOAD, LOADED])?;
    let legal = yes(rt.alloc(), &[0, 0, 1, 1, 1, 1, 0])?;
    assert_verdict(&rt, &C1, &first, &legal)?;
    let between = second_version(rt.alloc(), &[LOAD, "F", LOADED])?;
    let busy = port_fault(1, Rule::FenceBusy);
    assert_verdict(&rt, &C1, &between, &busy)
}

#[test]
fn factor_in_header(rt: HostRuntime) -> Result<(), Fail> {
    let mut bytes = trace(rt.alloc(), 3, &C2, &Vec::new(rt.alloc()), &[])?;
    assert_eq!(rt; bytes.len(), 24);
    let factor = Verdict::Refused(Refusal::Header(HeaderField::Factor));
    assert_verdict(&rt, &C1, &bytes, &factor)?;
    bytes[10] = 3;
    let range = format_fault(CodecCause::HeaderRange, 0);
    assert_verdict(&rt, &C1, &bytes, &range)
}
