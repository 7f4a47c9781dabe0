//! Maps, and what is told of those that are refused.

use explain_lines::{MapCause, MapFault, Times};
use std::test::Fail;

const MAP: &str = "\
# log 0 is the core's

0 0 1250 ns
3 0 0x7f
0 1 1251 ns
31 4294967296 2 \u{b5}s
";

#[test]
fn times_of_a_map(rt: HostRuntime) -> Result<(), Fail> {
    let Ok(times) = Times::parse(rt.alloc(), MAP) else {
        return Err(Fail::from("the map is refused"));
    };
    assert_eq!(rt; times.of(0, 1), Some("1251 ns"));
    assert_eq!(rt; times.of(31, 4294967296), Some("2 \u{b5}s"));
    assert_eq!(rt; times.of(0, 2), None);
    Ok(())
}

#[test]
fn line_that_is_refused(rt: HostRuntime) -> Result<(), Fail> {
    let Err(fault) = Times::parse(rt.alloc(), "0 0 1 ns\n256 0 1 ns\n") else {
        return Err(Fail::from("the map is not refused"));
    };
    let due = MapFault {
        line: 2,
        cause: MapCause::Log,
    };
    assert_eq!(rt; fault, due);
    let told = format!(in rt.alloc(); "{fault}")?;
    assert_eq!(rt;
        told.as_str(),
        "map line=2 expected the number of a log, 0 to 255"
    );
    Ok(())
}
