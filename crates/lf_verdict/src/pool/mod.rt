//! Whole traces: all bytes are read, and then workers judge the ports and the banks.

mod config_check;
mod gathering;
mod judge;
mod numbers;
mod outcomes;
mod shape_check;

pub use config_check::check;
pub use shape_check::check_shape;
