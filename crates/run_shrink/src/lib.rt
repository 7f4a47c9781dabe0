//! A smaller trace in which the same record breaks the same rule.
//!
//! `run_shrink` reads a trace and judges it. Where a port or a bank breaks a rule, it leaves records out, part by part,
//! and has each trace that is left judged again. It keeps each in which the same record breaks the same rule, and
//! answers the last and smallest one. `specs/Shrunk.antt` says what is known of it. How small it gets is tested, and not
//! proved.
#![tactic(auto)]

mod broken;
mod candidate;
mod contents;
mod keys;
mod mend;
mod numbers;
mod plan;
mod requests;
mod search;
mod shrink;
mod text;
mod wanted;

pub use broken::RuleFault;
pub use numbers::Place;
pub use search::{Observer, Silent};
pub use shrink::{Asked, Shrinking, Shrunk, run_shrink};
