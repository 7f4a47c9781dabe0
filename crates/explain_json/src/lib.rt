//! Why a verdict is what it is, as JSON for programs.
//!
//! `explained_json` is the answer of a run that came to a verdict, and the others are those of runs that came to none.
//! Each is one object on one line, with a newline at its end, that has the line of the answer. It tells each fact that
//! `explain_why::WhyText` tells for people; docs/JSON.md lists its fields. Numbers are numbers, addresses and masks are
//! hexadecimal digits behind `0x`, and bytes are two hexadecimal digits each, in the order of the trace.
#![tactic(auto)]

mod answer;
mod breach;
mod carried;
mod fault;
mod incomplete;
mod numbers;
mod object;
mod record;
mod state;
mod usage;

pub use answer::{Answer, Told, explained_json, no_memory_json, not_read_json, refused_json};
