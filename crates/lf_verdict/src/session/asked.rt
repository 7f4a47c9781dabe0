//! What a session is asked for.

/// What is asked of a trace beside its outcome. Each takes time, and an order takes memory.
#[derive(Clone, Copy)]
pub struct Asked {
    /// After a yes the least order of its events.
    pub ordered: bool,
    /// What broke first, with the record upon which it did.
    pub watched: bool,
    /// After a yes the statistics.
    pub counted: bool,
}
