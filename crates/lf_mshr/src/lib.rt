//! Register files: the miss status holding registers of one level of one bank.
//!
//! A file is seen as its organisation, its number of destinations and the list of what its registers
//! hold, in the order of acceptance. The trait `Organisation` says what each call does to that list;
//! `Implicit`, `Explicit` and `Inverted` are the three ways to organise a file.
#![tactic(auto)]

mod explicit;
mod fault;
mod held;
mod implicit;
mod inverted;
mod level_one;
mod level_two;
mod organisation;
mod places;
mod registers;
mod target;
mod targets;
mod words;

pub use explicit::{Explicit, ExplicitFile};
pub use fault::RegisterFault;
pub use implicit::{Implicit, ImplicitFile};
pub use inverted::{Inverted, InvertedFile};
pub use level_one::Request1;
pub use level_two::Request2;
pub use lf_rules::NoMemory;
pub use organisation::Organisation;
pub use target::Target;
pub use targets::Targets;
