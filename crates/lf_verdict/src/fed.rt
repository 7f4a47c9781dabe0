//! Which bytes something was fed, for contracts alone.

ghost use Rattle.std.specs.Prelude.{◌≡◌, ℕ, List, [], ◌++◌};

use std::marker::Model;

/// The bytes that something was fed so far. It has no bytes when the program runs.
///
/// No memory holds the list, so a proof by hand could give it any bytes. The only two that make or change
/// one are those of `new` and `add`.
#[derive(Drop)]
pub struct Fed {
    pub ghost bytes: { List ℕ },
}

impl Model for Fed {
    ghost use base.Fml.{ftrue};

    ghost also_owns = { λ _. ftrue };
}

impl Fed {
    /// Nothing was fed.
    pub fn new() -> Fed
        ensures { result.bytes ≡ [] }
    {
        Fed {}
    }

    /// These were fed too.
    pub fn add(&mut self, _piece: &[u8])
        ensures { self.new.bytes ≡ self.old.bytes ++ _piece.now }
    {}
}
