//! Why a verdict on a trace is what it is.
//!
//! `why_of` finds it: of a no why its fault stands in the trace, and what broke first where that is something else; of
//! a yes what the trace used at most of what its configuration has, or where complete traces are asked for a request
//! that has no reply; of bytes that are no trace the field that fails, and what broke first before it; of a trace of
//! another hierarchy the numbers that differ. `WhyText` is its text. `specs/` says which records are told of, and each
//! text exactly.
//!
//! It also reads what stands in the bytes of a trace. `parts_in` and `records_in` read any bytes, as far as these are a
//! trace. `trace_in` reads a trace, with its header. `packed_in` reads a trace and keeps its records in the form of
//! their bytes, and `packed_logs_in` also splits them into the logs of a trace that was found legal.
#![tactic(auto)]

mod broken_before;
mod cause;
mod logs;
mod not_complete;
mod not_legal;
mod packing;
mod parts;
mod text;
mod why;

pub use broken_before::BrokenBefore;
pub use cause::{Cause, CauseText};
pub use logs::packed_logs_in;
pub use not_complete::NotComplete;
pub use not_legal::NotLegal;
pub use packing::{Packing, packed_in};
pub use parts::{Parts, Trace, parts_in, records_in, trace_in};
pub use text::WhyText;
pub use why::{Asked, Judgement, Why, why_of};
