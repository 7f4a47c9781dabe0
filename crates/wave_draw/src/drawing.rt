//! What is drawn of a trace.

use wave_order::Clock;
use wave_signals::View;

/// What is drawn of a trace.
#[derive(Drop)]
pub struct Drawing {
    pub view: View,
    /// The times of the records, and where each is on the axis. Without them it is at its place.
    pub times: Option<Clock>,
    /// The log whose next record comes at each place. Without an order, the records come as in the file.
    pub order: Option<Vec<u8>>,
}
