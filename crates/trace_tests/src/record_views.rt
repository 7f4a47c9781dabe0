//! A happy call of each function of a view.

use std::test::Fail;
use trace_samples::{C1, record};
use trace_views::{EventView, RecordView};

/// Each kind of event.
const EVENTS: [&str; 16] = [
    "L 1 8@16",
    "S 2 2@18=aabb",
    "R 3=0102",
    "H 1",
    "P 1 7",
    "M 2 7",
    "X 3",
    "F1 4=0102030405060708",
    "E1 4 81=0108",
    "SH 4",
    "SP 4 5",
    "SS 4",
    "F2 2=0102030405060708090a0b0c0d0e0f10",
    "E2 2 1,80=0110",
    "F",
    "SM 4 5",
];

#[test]
fn records_that_are_lent(rt: HostRuntime) -> Result<(), Fail> {
    for text in EVENTS {
        let item = record(rt.alloc(), &C1, 2, 1, 7, text)?;
        let view = RecordView::of(&item);
        assert_eq!(rt; (view.log(), view.bank(), view.number()), (2, 1, 7));
        assert!(rt; view.to_record() == item, "{text}");
    }
    Ok(())
}

#[test]
fn bytes_that_are_lent(rt: HostRuntime) -> Result<(), Fail> {
    let bytes = [1, 2, 3, 4, 5, 6, 7, 8];
    let event = EventView::Fill1 {
        block: 9,
        bytes: &bytes,
    };
    let view = RecordView::new(1, 0, 5, event);
    let EventView::Fill1 { block, bytes: lent } = view.event() else {
        return Err(Fail::new("this is no fill"));
    };
    assert_eq!(rt; *block, 9);
    assert_eq!(rt; *lent, [1, 2, 3, 4, 5, 6, 7, 8].as_slice());
    let want = record(rt.alloc(), &C1, 1, 0, 5, "F1 9=0102030405060708")?;
    assert!(rt; view.to_record() == want);
    Ok(())
}
