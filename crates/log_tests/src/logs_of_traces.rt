//! The logs of a trace, and the order of a bank in them.

use lf_logs::{NumberFault, Place, bank_order, bank_records, record_at, skeletons, split};
use lf_rules::{Logs, Record};
use std::alloc::Global;
use std::test::Fail;
use trace_samples::{C1, LOAD, LOADED, logs, records, records_at};

#[test]
fn records_go_to_their_logs(rt: HostRuntime) -> Result<(), Fail> {
    let alloc = rt.alloc();
    let records = records(alloc, &C1, &["L 0 8@0, X 0, L 1 8@0"])?;
    assert!(rt; records.iter().all(|item| item.log < 2));
    let logs = split(alloc, 1, 1, records).ok().ok_or("no memory")?;
    assert_eq!(rt; logs.len(), 2);
    let port = records_at(alloc, &C1, &[(0, 0, 0, "L 0 8@0"), (0, 0, 2, "L 1 8@0")])?;
    assert!(rt; logs[0].as_slice() == port.as_slice());
    let bank = records_at(alloc, &C1, &[(1, 0, 1, "X 0")])?;
    assert!(rt; logs[1].as_slice() == bank.as_slice());
    let log_after_log = lf_logs::records(alloc, logs).ok().ok_or("no memory")?;
    let (front, rest) = log_after_log.split_at(log_after_log.len().min(2));
    assert!(rt; front == port.as_slice());
    assert!(rt; rest == bank.as_slice());
    Ok(())
}

#[test]
fn gaps_and_doubles(rt: HostRuntime) -> Result<(), Fail> {
    let places = [
        Place { log: 0, at: 0 },
        Place { log: 0, at: 1 },
        Place { log: 0, at: 2 },
    ];
    for (numbers, fault) in [
        ([0, 1, 2], None),
        ([0, 1, 3], Some(NumberFault::Missing(2))),
        ([0, 1, 1], Some(NumberFault::Double(1))),
        ([0, 2, 2], Some(NumberFault::Missing(1))),
    ] {
        let [a, b, c] = numbers;
        let rows = [
            (0, 0, a, "L 0 8@0"),
            (0, 0, b, "L 1 8@0"),
            (0, 0, c, "L 2 8@0"),
        ];
        let records = records_at(rt.alloc(), &C1, &rows)?;
        assert!(rt; records.iter().all(|item| item.log < 2));
        let logs = split(rt.alloc(), 1, 1, records).ok().ok_or("no memory")?;
        assert!(rt; logs.len() <= 32);
        assert!(rt; logs.iter().all(|log| log.len() <= 1 << 24));
        match bank_order(rt.alloc(), &logs, 0) {
            Ok(order) => {
                assert_eq!(rt; fault, None);
                assert_eq!(rt; order.as_slice(), places.as_slice());
                for place in &order {
                    assert_eq!(rt; record_at(&logs, *place).number, place.at);
                }
            }
            Err(found) => assert_eq!(rt; Some(found), fault),
        }
    }
    Ok(())
}

/// The places of the only bank's records, in the order of their numbers, and the records.
fn ordered(alloc: Global, logs: Logs) -> Result<(Vec<Place>, Vec<Vec<Record>>), Fail> {
    if logs.len() > 32 || !logs.iter().all(|log| log.len() <= 1 << 24) {
        return Err(Fail::from("too long"));
    }
    match bank_order(alloc, &logs, 0) {
        Ok(order) => {
            let banks = bank_records(alloc, 1, logs).ok().ok_or("no memory")?;
            Ok((order, banks))
        }
        Err(fault) => Err(Fail::from(fault)),
    }
}

#[test]
fn records_of_a_bank_from_two_logs(rt: HostRuntime) -> Result<(), Fail> {
    let rows = [
        (0, 0, 3, "L 0 8@0"),
        (0, 0, 0, "L 1 8@0"),
        (1, 0, 2, "X 0"),
        (1, 0, 1, "X 0"),
    ];
    let logs = logs(rt.alloc(), 2, records_at(rt.alloc(), &C1, &rows)?)?;
    let (order, banks) = ordered(rt.alloc(), logs)?;
    let places = [(0, 1), (1, 1), (1, 0), (0, 0)].map(|(log, at)| Place { log, at });
    assert_eq!(rt; order.as_slice(), places.as_slice());
    let [first, second, third, last] = rows;
    let sorted = records_at(rt.alloc(), &C1, &[second, last, third, first])?;
    assert_eq!(rt; banks.len(), 1);
    assert!(rt; banks[0].as_slice() == sorted.as_slice());
    Ok(())
}

#[test]
fn encode_and_skeletons(rt: HostRuntime) -> Result<(), Fail> {
    let records = records(rt.alloc(), &C1, &[LOAD, LOADED])?;
    let logs = logs(rt.alloc(), 2, records)?;
    let found = skeletons(rt.alloc(), &logs).ok().ok_or("no memory")?;
    assert_eq!(rt; found.len(), 2);
    assert_eq!(rt; found[0].as_slice(), [(0, 0), (0, 5)].as_slice());
    assert_eq!(rt;
        found[1].as_slice(),
        [(0, 1), (0, 2), (0, 3), (0, 4)].as_slice()
    );
    Ok(())
}
