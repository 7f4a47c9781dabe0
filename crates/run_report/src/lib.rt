//! Runs that report more of a trace than its verdict.
//!
//! `run_cover` writes the coverage of a legal trace, and `run_cover_data` the same as a file of Verilator.
//! `run_explain` also writes why the verdict is what it is, and `run_explain_json` the same as JSON. `Cover`,
//! `Explain` and `Json` are what is asked of `run_on`.
#![tactic(auto)]

mod as_json;
mod commands;
mod cover;
mod explain;
mod headline;

pub use as_json::Json;
pub use commands::{run_cover, run_cover_data, run_explain, run_explain_json};
pub use cover::{Cover, CoverageForm};
pub use explain::Explain;
pub use explain_why::Asked;
