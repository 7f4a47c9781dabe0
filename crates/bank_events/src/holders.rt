//! Which register holds a block, as the bank knows it of the block.

ghost use Rattle.std.specs.Prelude.{◌≡◌, true, false, IfSome, IfNone};
ghost use Rattle.bank_events.specs.Known.{is_in_flight, is_second_in_flight, register_of, second_register_of};

use bank_cells::{First, Second};

/// The register of the primary miss of a block of which level one has this.
pub fn holder_of(first: First) -> Option<u16>
    ensures some { IfSome result (λ register. (is_in_flight first ≡ true) × (register ≡ register_of first)) }
    ensures none { IfNone result (is_in_flight first ≡ false) }
{
    match first {
        First::InFlight { register, .. } => Some(register),
        First::Absent | First::Present => None,
    }
}

/// The register of the primary miss of a second-level block of which level two has this.
pub fn second_holder_of(second: Second) -> Option<u16>
    ensures some { IfSome result (λ register. (is_second_in_flight second ≡ true)
        × (register ≡ second_register_of second)) }
    ensures none { IfNone result (is_second_in_flight second ≡ false) }
{
    match second {
        Second::InFlight { register } => Some(register),
        Second::Absent | Second::Present => None,
    }
}
