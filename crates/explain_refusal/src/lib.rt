//! Why a trace or a configuration is refused, for people.
//!
//! A fault alone says which check failed, and where. Three values have a text that says more, and `specs/` has each
//! text exactly:
//!
//! - `FormatRefusal`, of bytes that are no trace: the bytes of the record, the field that fails with its place in the
//!   record, its value, and what is allowed.
//! - `HeaderRefusal`, of a trace of another hierarchy: each number that is not that of the configuration.
//! - `ConfigRefusal`, of a text that is no configuration: what the key may have, and the line at which it stands. Of a
//!   text that is no TOML it is the place of `toml_fault`: its line and column, and what was expected there.
#![tactic(auto)]

mod allowed;
mod bytes;
mod config;
mod field;
mod finding;
mod format;
mod header;
mod keys;
mod lines;
mod part;
mod stop;

pub use bytes::{header_at, up_to};
pub use config::ConfigRefusal;
pub use format::FormatRefusal;
pub use header::HeaderRefusal;
pub use stop::{TomlFault, toml_fault};
