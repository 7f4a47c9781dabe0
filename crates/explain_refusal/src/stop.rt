//! Where a text stops to be TOML.

ghost use Rattle.std.specs.Prelude.{IfOk};
ghost use Rattle.explain_refusal.specs.Stop.{IsTomlFault};

use lf_rules::NoMemory;
use std::alloc::Global;

/// Where a text stops to be TOML.
#[derive(Drop)]
pub struct TomlFault {
    /// How many bytes of the text stand before the place.
    pub offset: usize,
    /// What is wrong there, and what was expected, in a few words.
    pub reason: String,
}

/// Where the text stops to be TOML, and none where it is TOML.
pub fn toml_fault(alloc: Global, text: &str) -> Result<Option<TomlFault>, NoMemory>
    ensures { IfOk result (IsTomlFault text.now) }
{
    let Err(error) = toml::table_from_str(alloc, text) else {
        return Ok(None);
    };
    let Some(span) = error.span() else {
        return Err(NoMemory);
    };
    let reason = String::from_str(alloc, error.message())?;
    Ok(Some(TomlFault {
        offset: span.start,
        reason,
    }))
}
