//! What the calls of a reader or a writer moved, for contracts alone.

ghost use Rattle.std.specs.Prelude.{◌≡◌, ℕ, List, [], ◌∷◌, ◌++◌};

use std::marker::Model;

/// The pieces that calls moved so far. It has no bytes when the program runs.
///
/// No memory holds the list, so a proof by hand could give it any bytes. The only two that make or change
/// one are those of `new` and `add`, which `Counted` alone calls.
#[derive(Drop)]
pub struct Pieces {
    pub ghost list: { List (List ℕ) },
}

impl Model for Pieces {
    ghost use base.Fml.{ftrue};

    ghost also_owns = { λ _. ftrue };
}

impl Pieces {
    pub(crate) fn new() -> Pieces
        ensures { result.list ≡ [] }
    {
        Pieces {}
    }

    pub(crate) fn add(&mut self, _piece: &[u8])
        ensures { self.new.list ≡ self.old.list ++ _piece.now ∷ [] }
    {}
}
