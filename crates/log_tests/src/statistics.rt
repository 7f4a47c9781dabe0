//! The worked examples, by the lines that they print.

ghost use Rattle.std.specs.Prelude.{◌≡◌};
ghost use Rattle.lf_rules.specs.InRange.{IsShape};

use lf_logs::bank_order;
use lf_rules::Shape;
use lf_stats::{Stats, stats};
use std::alloc::Global;
use std::test::Fail;
use trace_samples::{C1, LOAD, LOADED, logs, records};

/// One port and one bank. The levels change no count.
pub fn shape() -> Shape
    ensures in_range { IsShape result }
    ensures ports { result.ports ≡ 1 }
    ensures banks { result.banks ≡ 1 }
{
    C1
}

/// The statistics of these events, or nothing where memory ran out for them.
pub fn counted(alloc: Global, parts: &[&str]) -> Result<Option<Stats>, Fail> {
    let records = records(alloc, &C1, parts)?;
    let logs = logs(alloc, 2, records)?;
    if logs.len() != 2 || !logs.iter().all(|log| log.len() <= 1 << 24) {
        return Err(Fail::from("too long"));
    }
    match bank_order(alloc, &logs, 0) {
        Ok(_) => Ok(stats(alloc, &shape(), &logs).ok()),
        Err(_) => Err(Fail::from("no order")),
    }
}

/// The lines of the statistics.
fn lines(alloc: Global, parts: &[&str]) -> Result<String, Fail> {
    let stats = counted(alloc, parts)?.ok_or("no memory")?;
    Ok(format!(in alloc; "{stats}")?)
}

/// The events of three examples, and the lines of their statistics.
pub const THREE: [(&str, &str); 3] = [
    // load_merges_behind_store
    (
        "S 0 1@0=aa, P 0 0, L 1 1@0, M 1 0, SP 0 0, F2 0, F1 0, R 0, R 1=aa",
        "bank=0 hits=0 primary=1 merges=1 stalls=0 peak=1\nport=0 unanswered=0\n",
    ),
    // explicit_entries_full
    (
        "L 0 8@0, P 0 0, L 1 8@0, M 1 0, L 2 8@0, X 2",
        "bank=0 hits=0 primary=1 merges=1 stalls=1 peak=1\nport=0 unanswered=3\n",
    ),
    // inverted_two_registers
    (
        "L 0 8@0, P 0 0, L 1 8@0, M 1 1",
        "bank=0 hits=0 primary=1 merges=1 stalls=0 peak=2\nport=0 unanswered=2\n",
    ),
];

#[test]
fn statistics_of_three(rt: HostRuntime) -> Result<(), Fail> {
    for (events, told) in THREE {
        assert_eq!(rt; lines(rt.alloc(), &[events])?.as_str(), told);
    }
    Ok(())
}

/// A fence is of no bank and of no tag.
#[test]
fn fence_last(rt: HostRuntime) -> Result<(), Fail> {
    let told = "bank=0 hits=0 primary=1 merges=0 stalls=0 peak=1\nport=0 unanswered=0\n";
    assert_eq!(rt; lines(rt.alloc(), &[LOAD, LOADED])?.as_str(), told);
    assert_eq!(rt; lines(rt.alloc(), &[LOAD, LOADED, "F"])?.as_str(), told);
    Ok(())
}
