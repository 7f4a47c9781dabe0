//! Orders and rings worked out by hand.

use lf_join::{JoinFault, Progress, check_cycle, entries_stay, join, joins_are_one};
use lf_rules::{Knot, Ring};
use std::test::Fail;

/// The ring of the answer, empty where it has none.
fn ring_of(answer: Result<Vec<u8>, JoinFault>) -> Ring {
    match answer {
        Err(JoinFault::Cycle(ring)) => ring,
        Err(JoinFault::NoMemory) => Ring::new(),
        Ok(_order) => Ring::new(),
    }
}

fn knot(log: u8, at: u32) -> Knot {
    Knot { log, at }
}

#[test]
fn least_order(rt: HostRuntime) -> Result<(), Fail> {
    let low = Vec::from_slice(rt.alloc(), &[(0, 0), (1, 1)])?;
    let high = Vec::from_slice(rt.alloc(), &[(1, 0)])?;
    let order = join(rt.alloc(), &[low, high])?;
    assert_eq!(rt; order.as_slice(), [0, 1, 0].as_slice());

    // The numbers of a log may fall.
    let falling = Vec::from_slice(rt.alloc(), &[(0, 1), (1, 0)])?;
    let other = Vec::from_slice(rt.alloc(), &[(0, 0)])?;
    let order = join(rt.alloc(), &[falling, other])?;
    assert_eq!(rt; order.as_slice(), [1, 0, 0].as_slice());
    Ok(())
}

#[test]
fn ring_of_three(rt: HostRuntime) -> Result<(), Fail> {
    let first = Vec::from_slice(rt.alloc(), &[(0, 1), (1, 0)])?;
    let second = Vec::from_slice(rt.alloc(), &[(1, 1), (2, 0)])?;
    let third = Vec::from_slice(rt.alloc(), &[(2, 1), (0, 0)])?;
    let skeletons = [first, second, third];
    let ring = ring_of(join(rt.alloc(), &skeletons));
    assert_eq!(rt;
        ring.as_slice(),
        [knot(0, 0), knot(2, 0), knot(1, 0)].as_slice()
    );
    assert!(rt; check_cycle(&skeletons, &ring));

    let mut other = Ring::new();
    assert!(rt; !check_cycle(&skeletons, &other));
    other.push(knot(0, 0));
    other.push(knot(1, 0));
    other.push(knot(2, 0));
    assert!(rt; !check_cycle(&skeletons, &other));
    Ok(())
}

#[test]
fn entries_that_go(rt: HostRuntime) -> Result<(), Fail> {
    // One that comes in the turn of its number goes, and a fence may always go.
    let mut progress = Progress::new();
    assert!(rt; progress.pass(1, (0, 0)));
    assert_eq!(rt; progress.gone(0), 0);
    assert_eq!(rt; progress.gone(1), 1);
    let mut progress = Progress::new();
    assert!(rt; progress.pass(0, (255, 7)));
    let mut progress = Progress::new();
    assert!(rt; !progress.pass(0, (0, 1)));
    assert_eq!(rt; progress.gone(0), 0);
    Ok(())
}

#[test]
fn nothing_is_left(rt: HostRuntime) -> Result<(), Fail> {
    let progress = Progress::new();
    assert!(rt; progress.finish(&[]).is_ok());
    Ok(())
}

#[test]
fn laws() {
    joins_are_one();
    entries_stay();
}
