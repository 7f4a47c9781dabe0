//! The lines where nothing is judged.

use run_engine::{InputFault, Line};
use std::test::Fail;

#[test]
fn lines_of_input_faults(rt: HostRuntime) -> Result<(), Fail> {
    for (fault, text) in [
        (InputFault::Usage, "refused usage"),
        (InputFault::ReadConfig, "refused read config"),
        (InputFault::NotToml, "refused config NotToml"),
        (InputFault::Memory, "refused memory"),
    ] {
        let line = Line::Refused(fault);
        let written = format!(in rt.alloc(); "{line}")?;
        assert_eq!(rt; written.as_str(), text);
    }
    Ok(())
}
