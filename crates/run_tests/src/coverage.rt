//! The coverage that is written.

use crate::streams::Pieces;
use run_engine::Counted;
use run_report::{run_cover, run_cover_data};
use std::test::Fail;
use trace_samples::{C1_TEXT, LOAD_MISSES_BOTH_LEVELS};

/// The coverage of a load that misses both levels and has its reply.
const OF_LOAD: &str = "\
bank=0 hit=0
bank=0 merge=0
bank=0 stall=0
bank=0 stall_no_register=0
bank=0 stall_no_entry=0
bank=0 evict1=0
bank=0 evict1_clean=0
bank=0 evict1_part=0
bank=0 evict1_whole=0
bank=0 hit_under_miss=0
bank=0 second_hit=0
bank=0 second_refetched=0
bank=0 evict2=0
bank=0 load_behind_load=0
bank=0 load_behind_store=0
bank=0 store_behind_load=0
bank=0 store_behind_store=0
bank=0 refetched=0
bank=0 fill1_over_stores=0
bank=0 evict1_under_supply=0
bank=0 evict2_under_supply=0
bank=0 evict2_of_same_set=0
bank=0 evict2_beside_pinned=0
bank=0 evict2_last_unpinned=0
bank=0 evict2_dirty_0=0
bank=0 evict2_dirty_1=0
bank=0 targets_2=0
bank=0 merge_port_0=0
port=0 load_1=0
port=0 load_2=0
port=0 load_4=0
port=0 store_1=0
port=0 store_2=0
port=0 store_4=0
port=0 store_8=0
port=0 fence=0
bank=0 primary=1
bank=0 fill1=1
bank=0 second_primary=1
bank=0 fill2=1
bank=0 registers_1=1
port=0 load_8=1
port=0 reply=1
covered 7 of 43
";

#[test]
fn coverage_of_load_misses_both_levels(rt: HostRuntime) -> Result<(), Fail> {
    let mut reader = Counted::new(Pieces::new(&LOAD_MISSES_BOTH_LEVELS, 50));
    let mut writer = Counted::new(Vec::new(rt.alloc()));
    let answer = run_cover(&rt, &mut reader, &mut writer, C1_TEXT, 1000);
    assert!(rt; answer.is_ok());
    assert_eq!(rt; std::str::from_utf8(writer.inner()), Ok(OF_LOAD));
    Ok(())
}

/// The first lines of the file for Verilator, and the last.
const DATA_BEGINS: &str = "\
# SystemC::Coverage-3
C '\u{1}page\u{2}v_user/lockup_free\u{1}f\u{2}coverage/points.txt\
\u{1}l\u{2}1\u{1}n\u{2}0\u{1}o\u{2}hit\u{1}h\u{2}bank0' 0
";

const DATA_ENDS: &str = "\u{1}l\u{2}47\u{1}n\u{2}0\u{1}o\u{2}reply\u{1}h\u{2}port0' 1
C '\u{1}page\u{2}v_user/lockup_free\u{1}f\u{2}coverage/points.txt\
\u{1}l\u{2}48\u{1}n\u{2}0\u{1}o\u{2}fence\u{1}h\u{2}port0' 0
";

#[test]
fn data_of_load_misses_both_levels(rt: HostRuntime) -> Result<(), Fail> {
    let mut reader = Counted::new(Pieces::new(&LOAD_MISSES_BOTH_LEVELS, 50));
    let mut writer = Counted::new(Vec::new(rt.alloc()));
    let answer = run_cover_data(&rt, &mut reader, &mut writer, C1_TEXT, 1000);
    assert!(rt; answer.is_ok());
    let text = std::str::from_utf8(writer.inner()).ok().ok_or("no text")?;
    assert!(rt; text.starts_with(DATA_BEGINS));
    assert!(rt; text.ends_with(DATA_ENDS));
    Ok(())
}
