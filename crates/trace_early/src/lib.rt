//! Bytes that are kept one after another, each until it is let go, and a table that finds them by their numbers.
//!
//! They stand in chunks of 64 KiB, each behind its length in two bytes. A chunk whose bytes have all gone is used
//! again, so that what is held follows what is kept. `specs/Kept` says what stands where, and `specs/Table` what a
//! table has.
#![tactic(auto)]

mod by_number;
mod chunk;
mod chunks;
mod place;
mod slot;

pub use by_number::ByNumber;
pub use chunks::Chunks;
pub use place::Place;
