//! The waveform of a trace, in the text form VCD that GTKWave and other viewers read.
//!
//! The records of a trace stand at one nanosecond each, one after another, or at their times, where a map tells them
//! (`Clock`). A port and a bank each have a scope, with the word of their record, what it names, and for a port its busy
//! tags, for a bank the block that each register holds and how many targets wait in it, how many blocks go between the
//! levels, and how many lines are dirty. Two records may be marked: the one at fault that the verdict names, and the one
//! that broke a rule first. `specs/Wave` says the text exactly: what stands at the head, and what each record changes.
#![tactic(auto)]

mod busy;
mod change;
mod changes;
mod each;
mod event;
mod head;
mod moment;
mod register_changes;
mod registers;
mod save;
mod signal;
mod told;
mod traffic_changes;
mod variable;
mod view;
mod wave;

pub use save::SaveFile;
pub use view::{Marker, View, Why};
pub use wave::Wave;
