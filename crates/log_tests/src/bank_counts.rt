//! The counts of a bank while its records come in the order of their numbers.

use crate::statistics::{THREE, shape};
use lf_stats::{BankCount, BankStats};
use std::alloc::Global;
use std::test::Fail;
use trace_samples::{memory_ran_out, records};

/// The counts of these events of the bank.
fn counted_in_turn(alloc: Global, events: &str) -> Result<BankStats, Fail> {
    let shape = shape();
    let records = records(alloc, &shape, &[events])?;
    let Ok(mut count) = BankCount::new(alloc, shape.block) else {
        return Err(memory_ran_out());
    };
    for item in &records {
        if count.take(item).is_err() {
            return Err(memory_ran_out());
        }
    }
    Ok(count.stats())
}

#[test]
fn bank_counts_of_three(rt: HostRuntime) -> Result<(), Fail> {
    for (events, told) in THREE {
        let counts = counted_in_turn(rt.alloc(), events)?;
        let line = format!(in rt.alloc(); "bank=0 {counts}\n")?;
        assert!(rt; told.starts_with(line.as_str()));
    }
    Ok(())
}
