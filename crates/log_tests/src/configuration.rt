//! Texts and what they say.

use lf_config::{ConfigFault, Key, LevelKey, read};
use lf_rules::Shape;
use std::process::Abort;
use std::test::Fail;
use trace_samples::C1;

const TOP: &str = "ports = 1\nbanks = 1\nblock = 8\ntags = 4\n";

const LEVEL1: &str =
    "[level1]\nsets = 1\nways = 1\norganisation = \"explicit\"\nregisters = 1\nentries = 2\n";

const LEVEL2: &str =
    "[level2]\nsets = 1\nways = 2\norganisation = \"explicit\"\nregisters = 1\nentries = 1\n";

/// The text of the three parts is read as this.
fn assert_read<T: Abort + AllocGlobal>(
    rt: &T,
    top: &str,
    level1: &str,
    level2: &str,
    answer: Result<Shape, ConfigFault>,
) -> Result<(), Fail> {
    let text = format!(in rt.alloc(); "{top}{level1}{level2}")?;
    assert!(rt; read(rt.alloc(), text.as_str()) == answer);
    Ok(())
}

#[test]
fn c1_is_read_whole(rt: HostRuntime) -> Result<(), Fail> {
    assert_read(&rt, TOP, LEVEL1, LEVEL2, Ok(C1))
}

#[test]
fn configuration_faults(rt: HostRuntime) -> Result<(), Fail> {
    let no_tags = "ports = 1\nbanks = 1\nblock = 8\n";
    let missing = Err(ConfigFault::Missing(Key::Tags));
    assert_read(&rt, no_tags, LEVEL1, LEVEL2, missing)?;
    let many_banks = "ports = 1\nbanks = 17\nblock = 8\ntags = 4\n";
    let range = Err(ConfigFault::Range(Key::Banks));
    assert_read(&rt, many_banks, LEVEL1, LEVEL2, range)?;
    let no_table = "ports = 1\nbanks = 1\nblock = 8\ntags = 4\nlevel2 = 1\n";
    let kind = Err(ConfigFault::Kind(Key::Table(LevelKey::Two)));
    assert_read(&rt, no_table, LEVEL1, "", kind)?;
    let coloured = "colour = 1\nports = 1\nbanks = 1\nblock = 8\ntags = 4\n";
    let unknown = Err(ConfigFault::Unknown(String::from_str(rt.alloc(), "colour")?));
    assert_read(&rt, coloured, LEVEL1, LEVEL2, unknown)?;
    assert_read(&rt, "", "", "", Err(ConfigFault::Missing(Key::Ports)))
}
