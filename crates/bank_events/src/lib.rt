//! A bank of both levels, which has one cell for each block.
//!
//! `Bank` judges the records of a bank, one by one in the order of their numbers, and carries them out. What it knows
//! block by block is a `Known` of `specs/`, as are the rules by that, and what is known after an event. Laws say when
//! that is a state of the model, which keeps lists: then the same rules are broken, and it is so after each event.
#![tactic(auto)]

mod apply;
mod bank;
mod carried;
mod counts;
mod fault;
mod holders;
mod leaving;
mod level_one;
mod level_two;
mod registers;
mod replies;
mod supply;
mod target;

pub use bank::Bank;
pub use fault::BankFault;
