//! Bytes by their numbers.

ghost use Rattle.std.specs.Prelude.{◌≤◌, length};

use std::process::Abort;
use std::test::Fail;
use trace_early::ByNumber;
use trace_samples::memory_ran_out;

/// Keeps some bytes. It says whether no others have the number.
fn keep(table: &mut ByNumber, number: u32, item: &[u8]) -> Result<bool, Fail>
    requires { length item.now ≤ 65531 }
{
    if table.contains(number) {
        return Ok(false);
    }
    let Ok(()) = table.put(number, item) else {
        return Err(memory_ran_out());
    };
    Ok(true)
}

/// Keeps four bytes for each of these numbers.
fn keep_all(rt: &impl Abort, table: &mut ByNumber, numbers: &[u32]) -> Result<(), Fail> {
    for number in numbers {
        let bytes = number.to_be_bytes();
        assert!(rt; keep(table, *number, &bytes)?);
        assert!(rt; !keep(table, *number, &bytes)?);
    }
    Ok(())
}

/// Fails unless each of these numbers has its bytes, and lets them go.
fn take_all(rt: &impl Abort, table: &mut ByNumber, numbers: &[u32]) {
    for number in numbers {
        let bytes = number.to_be_bytes();
        assert_eq!(rt; table.get(*number), Some(bytes.as_slice()));
        table.drop(*number);
        assert!(rt; table.get(*number).is_none());
    }
}

/// The numbers of one slot in a first table, others that make it wider, and the greatest.
#[test]
fn each_number_has_its_bytes_until_they_are_let_go(rt: HostRuntime) -> Result<(), Fail> {
    let numbers = [7, 71, 135, 0, 1, 2, 3, 4, 5, 6, 8, u32::MAX, 199];
    let mut table = ByNumber::new(rt.alloc());
    assert!(&rt; table.is_empty());
    keep_all(&rt, &mut table, &numbers)?;
    assert!(&rt; !table.is_empty());
    take_all(&rt, &mut table, &numbers);
    assert!(&rt; table.is_empty());
    Ok(())
}
