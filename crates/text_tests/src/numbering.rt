//! Reasons, with their texts written out.

use explain_history::packed;
use explain_lines::{Listing, Marks};
use explain_numbers::{NoMemory, Reason, Reasoned};
use lf_codec::Packed;
use lf_rules::Knot;
use std::alloc::{AllocError, Global};
use std::process::Abort;
use std::test::Fail;
use trace_samples::{C1, records_at};

/// The text of a reason over records with these marks.
fn text_of<'a>(
    alloc: Global,
    records: &'a Packed,
    marks: &'a Marks,
    reason: &'a Reason,
) -> Result<String, AllocError> {
    let listing = Listing { records, marks };
    let reasoned = Reasoned { listing, reason };
    format!(in alloc; "{reasoned}")
}

/// Fails where the reason has another text. The records stand at the offsets 16, 36, and so on.
fn assert_reasoned<T: Abort + AllocGlobal>(
    rt: &T,
    records: &Packed,
    reason: Result<Reason, NoMemory>,
    due: &str,
) -> Result<(), Fail> {
    let Ok(reason) = reason else {
        return Err(Fail::from("out of memory"));
    };
    let marks = Marks {
        offsets: Vec::from_array(rt.alloc(), [16, 36, 56, 76])?,
        times: Vec::new(rt.alloc()),
    };
    let text = text_of(rt.alloc(), records, &marks, &reason)?;
    assert_eq!(rt; text.as_str(), due);
    Ok(())
}

#[test]
fn number_of_two_records(rt: HostRuntime) -> Result<(), Fail> {
    let rows = [
        (0, 0, 1, "L 0 8@0"),
        (0, 1, 1, "L 1 8@0"),
        (2, 0, 0, "SH 0"),
        (1, 0, 1, "L 2 8@0"),
    ];
    let records = packed(rt.alloc(), &records_at(rt.alloc(), &C1, &rows)?)?;
    let due = "\
these records all have number 1 of bank 0:
load port=0 bank=0 number=1 tag=0 size=8 address=0x0 ; at 16
load port=1 bank=0 number=1 tag=2 size=8 address=0x0 ; at 76
";
    let reason = Reason::double(rt.alloc(), &records, 0, 1);
    assert_reasoned(&rt, &records, reason, due)
}

#[test]
fn number_below_all(rt: HostRuntime) -> Result<(), Fail> {
    let rows = [(0, 1, 0, "L 0 8@0"), (0, 0, 1, "L 1 8@0")];
    let records = packed(rt.alloc(), &records_at(rt.alloc(), &C1, &rows)?)?;
    let due = "\
no record has number 0 of bank 0

the nearest number above it:
load port=0 bank=0 number=1 tag=1 size=8 address=0x0 ; at 36
";
    let reason = Reason::missing(rt.alloc(), &records, 0, 0);
    assert_reasoned(&rt, &records, reason, due)
}

/// Of the records behind it, the one with the least number is told.
#[test]
fn log_that_waits_for_itself(rt: HostRuntime) -> Result<(), Fail> {
    let rows = [
        (2, 0, 2, "SH 0"),
        (2, 0, 1, "SH 0"),
        (1, 0, 3, "L 0 8@0"),
        (2, 0, 0, "SH 0"),
    ];
    let records = packed(rt.alloc(), &records_at(rt.alloc(), &C1, &rows)?)?;
    let ring = [Knot { log: 2, at: 0 }];
    let due = "\
these records wait for one another, and none can come first:
second_hit bank=0 number=2 block=0 ; at 16
  by the numbers of bank 0 it comes after
second_hit bank=0 number=0 block=0 ; at 76
  by the log of bank 0 it comes after
second_hit bank=0 number=2 block=0 ; at 16
";
    let reason = Reason::cycle(rt.alloc(), &records, &ring);
    assert_reasoned(&rt, &records, reason, due)
}
