//! The order in which the records of a trace are drawn.
//!
//! The order of a yes comes with it. That of a no, or one by the times of a map, is made here (`order_to`): each log in
//! its own order and the records of each bank by their numbers, as far as they go, and no further than to the record
//! that is sought. `specs/Ordered` says what the records in an order are, and `specs/OrderTo` what this order is.
//! `Clock` puts the records on an axis of their times (`specs/Times`).
#![tactic(auto)]

mod clock;
mod counts;
mod front;
mod left;
mod sought;

pub use clock::{Clock, ZOOM};
pub use counts::Counts;
pub use front::{Front, order_to};
pub use left::Left;
pub use sought::Sought;
