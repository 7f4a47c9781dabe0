//! What a bank knows of its blocks, at places that they get once.

use bank_cells::{Cells, First, Second};
use std::test::Fail;
use trace_samples::C2;

#[test]
fn cell_of_a_block(rt: HostRuntime) -> Result<(), Fail> {
    let mut cells = Cells::of_bank(rt.alloc(), &[], &C2, 0)?;
    assert_eq!(rt; cells.find(7), None);
    let cell = cells.find_or_add(7)?;
    assert_eq!(rt; cells.find(7), Some(cell));
    assert_eq!(rt; cells.first(cell), First::Absent);
    assert_eq!(rt; cells.second_of(cell), Second::Absent);
    cells.set_first(cell, First::Present);
    assert_eq!(rt; cells.first(cell), First::Present);
    Ok(())
}

#[test]
fn place_of_a_second_level_block(rt: HostRuntime) -> Result<(), Fail> {
    let mut cells = Cells::of_bank(rt.alloc(), &[], &C2, 0)?;
    let cell = cells.find_or_add(7)?;
    let Some(at) = cells.find_second(3) else {
        return Err(Fail::from("it has no place"));
    };
    cells.set_second(at, Second::Present);
    assert_eq!(rt; cells.second(at), Second::Present);
    assert_eq!(rt; cells.second_of(cell), Second::Present);
    Ok(())
}
