//! Which block a way has a line on, or that it is free.

ghost use Rattle.std.specs.Prelude.{◌≡◌, Some, None};
ghost use Rattle.lf_levels.specs.Rows.{is_same};

use std::marker::Model;

/// The block that a way has a line on, or that it is free. The keys of a set stand together, so that a
/// search reads one or two cache lines, and makes one comparison for each way.
#[derive(Clone, Copy)]
pub struct WayKey {
    /// 0 for a free way, and otherwise one more than the block.
    code: u64,
}

impl Model for WayKey {
    ghost use Rattle.std.specs.Prelude.{ℕ, Option};
    ghost use Rattle.std.proofs.Common.{ap};
    ghost use Rattle.lf_levels.specs.WayKeys.{key_of_code, code_of_key, code_again};

    ghost Value = { Option ℕ };

    ghost view = { λ k. key_of_code k.code };

    ghost inverse = { λ key. record { code = code_of_key key } };

    ghost inverse_ok = { λ k h. ap (λ c. record { code = c }) (code_again k.code) };
}

impl WayKey {
    /// The key of a free way.
    pub fn free() -> WayKey
        ensures { result ≡ None }
    {
        WayKey { code: 0 }
    }

    /// The key of a way with a line on the block.
    pub fn of(block: u32) -> WayKey
        ensures { result ≡ Some block }
    {
        WayKey {
            code: u64::from(block) + 1,
        }
    }

    /// Whether both are on one block, or both are free.
    #[inline(always)]
    pub fn is(self, other: WayKey) -> bool
        ensures { result ≡ is_same other self }
    {
        self.code == other.code
    }
}
