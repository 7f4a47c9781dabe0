//! How far a block is in each level.

/// How far a missed block is on its way to level one.
#[derive(Clone, Copy, Debug, PartialEq, Eq)]
pub enum Fetch {
    /// Level one asks for it.
    Asked,
    /// It is in a level-two register.
    Missed,
    /// Level two supplied it.
    Supplied,
}

/// What level one has of a block. The register is that of the block's primary miss.
#[derive(Clone, Copy, Debug, PartialEq, Eq)]
pub enum First {
    Absent,
    InFlight { register: u16, fetch: Fetch },
    Present,
}

/// What level two has of a second-level block. The register is that of its primary miss.
#[derive(Clone, Copy, Debug, PartialEq, Eq)]
pub enum Second {
    Absent,
    InFlight { register: u16 },
    Present,
}
