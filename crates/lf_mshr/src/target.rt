//! What a register holds of a request.

ghost use Rattle.std.specs.Prelude.{◌≡◌, ℕ, ◌<◌, Bool};

use lf_rules::Mask;

/// A request that waits in a register.
pub trait Target: Copy + Default + Drop {
    ghost use Rattle.lf_rules.specs.declared.mask.Mask.{Mask};

    ghost position: { Self → ℕ };

    ghost destination: { Self → ℕ };

    ghost is_store: { Self → Bool };

    ghost bytes: { Self → Mask };

    /// The word of its block, or the part of it, that the target asks for: the field that it takes in
    /// an implicitly addressed register.
    fn position(&self) -> u8
        ensures field { result ≡ position self.now }
        ensures eight { result < 8 };

    /// The place that the reply goes to: the register that it takes in an inverted file.
    fn destination(&self) -> u16
        ensures { result ≡ destination self.now };

    /// Whether its request is a store.
    fn is_store(&self) -> bool
        ensures { result ≡ is_store self.now };

    /// The bytes of the block that it reads or writes.
    fn bytes(&self) -> Mask
        ensures { result ≡ bytes self.now };

    // every value has one of eight positions
    ghost below_eight: { (target : Self) → position target < 8 };
}
