//! What a level-one register holds of a request.

ghost use Rattle.std.specs.Prelude.{◌<◌};

use crate::target::Target;
use lf_rules::Mask;

/// A target at level one.
#[derive(Clone, Copy, PartialEq, Eq)]
pub struct Request1 {
    /// The word of the block, below 8.
    pub position: u8,
    /// `port * tags + tag`.
    pub destination: u16,
    pub is_store: bool,
    /// The bytes of the block that the request reads or writes.
    pub bytes: Mask,
    /// A load's bytes as a little-endian number, and 0 for a store.
    pub value: u64,
    pub ghost eight: { position < 8 },
}

impl Default for Request1 {
    fn default() -> Request1 {
        Request1 {
            position: 0,
            destination: 0,
            is_store: false,
            bytes: Mask(0),
            value: 0,
        }
    }
}

impl Target for Request1 {
    ghost use Rattle.std.specs.Prelude.{false};

    ghost position = { λ r. r.position };

    ghost destination = { λ r. r.destination };

    ghost is_store = { λ r. r.is_store };

    ghost bytes = { λ r. r.bytes };

    ghost below_eight = { λ r. r.eight };

    fn position(&self) -> u8 {
        self.position
    }

    fn destination(&self) -> u16 {
        self.destination
    }

    fn is_store(&self) -> bool {
        self.is_store
    }

    fn bytes(&self) -> Mask {
        self.bytes
    }
}
