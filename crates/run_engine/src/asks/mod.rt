//! What can be asked of a trace: each is what a run has to find out, and the text for it.

mod check;
mod complete;
mod statistics;
mod watch;

pub use check::Check;
pub use complete::Complete;
pub use statistics::Statistics;
pub use watch::Watch;
