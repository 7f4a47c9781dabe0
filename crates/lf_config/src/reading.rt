//! Reads a configuration.

ghost use Rattle.std.specs.Prelude.{IfOk};
ghost use Rattle.lf_rules.specs.InRange.{IsShape};
ghost use Rattle.toml.specs.View.{table_view};
ghost use Rattle.lf_config.specs.Configuration.{Answers, configuration_of, said_by};

use crate::fault::ConfigFault;
use crate::rules::{first_misfit, first_missing, first_out_of_range};
use crate::told::shape;
use crate::unknown::first_unknown;
use lf_rules::Shape;
use std::alloc::Global;
use toml::Table;

fn judge(alloc: Global, table: &Table) -> Result<Shape, ConfigFault>
    ensures { Answers result (said_by (table_view table.now)) }
{
    if let Some(name) = first_unknown(alloc, table)? {
        return Err(ConfigFault::Unknown(name));
    }
    if let Some(key) = first_missing(table) {
        return Err(ConfigFault::Missing(key));
    }
    if let Some(key) = first_misfit(table) {
        return Err(ConfigFault::Kind(key));
    }
    if let Some(key) = first_out_of_range(table) {
        return Err(ConfigFault::Range(key));
    }
    Ok(shape(table))
}

/// The shape that a text says, or the first fault of the text.
#[tactic(auto, unfolding(crate::specs::Configuration::configuration_of))]
pub fn read(alloc: Global, text: &str) -> Result<Shape, ConfigFault>
    ensures gives { Answers result (configuration_of text.now) }
    ensures in_range { IfOk result IsShape }
{
    match toml::table_from_str(alloc, text) {
        Ok(table) => judge(alloc, &table),
        Err(e) => {
            if e.is_memory() {
                Err(ConfigFault::NoMemory)
            } else {
                Err(ConfigFault::NotToml)
            }
        }
    }
}
