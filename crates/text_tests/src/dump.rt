//! Traces with their texts written out.

use crate::traces::{TEXT, TRACE};
use run_stream::Counted;
use std::test::Fail;
use text_dump::{Choice, dump, dump_chosen};

#[test]
fn text_of_a_trace(rt: HostRuntime) -> Result<(), Fail> {
    let mut reader = Counted::new(&TRACE[..]);
    let mut writer = Counted::new(Vec::new(rt.alloc()));
    let answer = dump(&rt, &mut reader, &mut writer, 10);
    assert_eq!(rt; answer, Ok(None));
    assert_eq!(rt; std::str::from_utf8(writer.inner()), Ok(TEXT));
    Ok(())
}

/// A load of each of two banks, and that of bank 0 takes a register.
const TWO_BANKS: [u8; 88] = [
    0x4c, 0x46, 0x54, 0x53, 1, 0, 1, 2, 8, 0, 0, 0, 1, 0, 0, 0, 3, 0, 0, 0, 1, 2, 3, 4, 5, 6, 7, 8,
    1, 0, 0, 0, 0, 0, 0, 0, 0, 0, 8, 0, 0, 0, 0, 0, 0, 0, 0, 0, 1, 0, 1, 0, 0, 0, 0, 0, 0, 1, 8, 0,
    8, 0, 0, 0, 0, 0, 0, 0, 4, 1, 0, 0, 1, 0, 0, 0, 0, 0, 0, 0, 0, 0, 0, 0, 3, 0, 0, 0,
];

/// The lines that are about bank 0.
const LINES: &str = "\
lfts version=1 ports=1 banks=2 block=8 factor=1 memory=1 part ; at 0
load port=0 bank=0 number=0 tag=0 size=8 address=0x0 ; at 28
primary bank=0 number=1 port=0 tag=0 register=0 ; at 68
end count=3 ; at 80
";

#[test]
fn lines_of_a_bank(rt: HostRuntime) -> Result<(), Fail> {
    let bank = Choice {
        bank: Some(0),
        ..Choice::default()
    };
    let mut reader = Counted::new(&TWO_BANKS[..]);
    let mut writer = Counted::new(Vec::new(rt.alloc()));
    let answer = dump_chosen(&rt, &mut reader, &mut writer, 10, bank);
    assert_eq!(rt; answer, Ok(None));
    assert_eq!(rt; std::str::from_utf8(writer.inner()), Ok(LINES));
    Ok(())
}
