//! Records in the form of their bytes, by their logs.

ghost use Rattle.std.specs.Prelude.{◌≤◌, ◌^◌, length, IfOk};
ghost use Rattle.std.specs.List.{All};

use explain_history::packed;
use lf_logs::{LogRecords, PackedLogs, Place, places_of_bank};
use lf_rules::Record;
use std::alloc::Global;
use std::test::Fail;
use trace_samples::{C1, memory_ran_out, records_at};
use trace_views::RecordView;

/// The records of one port and one bank, packed.
fn packed_logs(alloc: Global, records: &[Record]) -> Result<PackedLogs, Fail>
    ensures few { IfOk result (λ logs. length logs ≤ 32) }
    ensures short { IfOk result (λ logs. All (λ log. length log ≤ 2 ^ 24) logs) }
{
    if records.len() > 1 << 24 || !records.iter().all(|item| item.log < 2) {
        return Err(Fail::from("too long"));
    }
    let Ok(records) = packed(alloc, records) else {
        return Err(memory_ran_out());
    };
    let Ok(logs) = PackedLogs::split(alloc, 1, 1, records) else {
        return Err(memory_ran_out());
    };
    Ok(logs)
}

#[test]
fn packed_records_of_a_bank(rt: HostRuntime) -> Result<(), Fail> {
    let rows = [
        (0, 0, 3, "L 0 8@0"),
        (0, 0, 0, "L 1 8@0"),
        (1, 0, 2, "X 0"),
        (1, 0, 1, "X 0"),
    ];
    let records = records_at(rt.alloc(), &C1, &rows)?;
    let logs = packed_logs(rt.alloc(), records.as_slice())?;
    assert_eq!(rt; logs.log_count(), 2);
    for log in 0..logs.log_count() {
        assert_eq!(rt; logs.log_len(log), 2);
    }
    let Ok(order) = places_of_bank(rt.alloc(), &logs, 0) else {
        return Err(Fail::from("no order"));
    };
    let places = [(0, 1), (1, 1), (1, 0), (0, 0)].map(|(log, at)| Place { log, at });
    assert_eq!(rt; order.as_slice(), places.as_slice());
    let [first, second, third, last] = rows;
    let sorted = records_at(rt.alloc(), &C1, &[second, last, third, first])?;
    for (number, place) in order.iter().enumerate() {
        let (bank, found) = logs.entry(*place);
        assert_eq!(rt; (bank, found as usize), (0, number));
        let mut room = RecordView::blank();
        logs.lend(*place, &mut room);
        assert!(rt; Some(&room.to_record()) == sorted.get(number));
    }
    Ok(())
}
