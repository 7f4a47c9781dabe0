//! Writes the waveform of a trace while it is read.
//!
//! `view` reads a trace in pieces and writes what the wave shows of each record as soon as its bytes are
//! there, so it keeps no more than a piece, its wave, the busy tags and the held registers. With an order, a record is
//! written as soon as its turn has come too, and `view` keeps the order and the records that stand in the file before
//! their turn. `specs/Viewing` says what went out, `wave_order` what the records in an order are, and `wave_signals`
//! what the wave of some records is. `order_of_no` makes the order of a no, which ends with the record at fault, in
//! another reading of the trace.
#![tactic(auto)]

mod drawer;
mod drawing;
mod fault;
mod laws;
mod order;
mod ordering;
mod queues;
mod records;
mod viewing;

pub use drawing::Drawing;
pub use fault::ViewFault;
pub use laws::yes_is_drawn_in_its_order;
pub use ordering::order_of_no;
pub use viewing::view;
pub use wave_order::{Clock, Front, Sought};
