//! The lines of records, with their texts written out.

use explain_history::packed;
use explain_lines::{Listing, RecordLines, Times, marks_of};
use std::test::Fail;
use trace_samples::{C1, records_at};

/// The second record of port 1 is the third of the trace.
#[test]
fn lines_with_times(rt: HostRuntime) -> Result<(), Fail> {
    let rows = [
        (1, 0, 0, "L 0 8@0"),
        (2, 0, 1, "SH 0"),
        (1, 0, 2, "L 1 8@0"),
    ];
    let records = packed(rt.alloc(), &records_at(rt.alloc(), &C1, &rows)?)?;
    let Ok(times) = Times::parse(rt.alloc(), "1 1 1250 ns\n2 0 7\n3 0 8\n") else {
        return Err(Fail::from("the map is refused"));
    };
    let marks = marks_of(rt.alloc(), &records, 16, Some(&times))?;
    let lines = RecordLines {
        listing: Listing {
            records: &records,
            marks: &marks,
        },
        places: &[0, 1, 2, 3],
    };
    let text = format!(in rt.alloc(); "{lines}")?;
    let due = "\
load port=1 bank=0 number=0 tag=0 size=8 address=0x0 ; at 16
second_hit bank=0 number=1 block=0 ; at 36, time 7
load port=1 bank=0 number=2 tag=1 size=8 address=0x0 ; at 48, time 1250 ns
";
    assert_eq!(rt; text.as_str(), due);
    Ok(())
}
