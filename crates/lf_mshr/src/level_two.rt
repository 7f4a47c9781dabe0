//! What a level-two register holds of a block that level one asked for.

ghost use Rattle.std.specs.Prelude.{◌<◌};

use crate::target::Target;
use lf_rules::Mask;

/// A target at level two: a block that level one asked for. It is never a store.
#[derive(Clone, Copy, PartialEq, Eq)]
pub struct Request2 {
    /// The part of the second-level block, below 8.
    pub position: u8,
    /// The level-one register of the block's primary miss.
    pub destination: u16,
    pub ghost eight: { position < 8 },
}

impl Default for Request2 {
    fn default() -> Request2 {
        Request2 {
            position: 0,
            destination: 0,
        }
    }
}

impl Target for Request2 {
    ghost use Rattle.std.specs.Prelude.{false};

    ghost position = { λ r. r.position };

    ghost destination = { λ r. r.destination };

    ghost is_store = { λ r. false };

    ghost bytes = { λ r. record { 0 = 0 } };

    ghost below_eight = { λ r. r.eight };

    fn position(&self) -> u8 {
        self.position
    }

    fn destination(&self) -> u16 {
        self.destination
    }

    fn is_store(&self) -> bool {
        false
    }

    fn bytes(&self) -> Mask {
        Mask(0)
    }
}
