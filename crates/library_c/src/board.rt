//! A board, which C keeps.

ghost use Rattle.std.specs.Prelude.{◌≡◌, true, Some, None, IsSome, IfSome, is_some};
ghost use Rattle.std.proofs.Props.{props};

use crate::held::Held;
use lf_verdict::Session;
use std::alloc::Global;
use std::mem::replace;

/// A session, where the board is live: open, as C says. C makes it as zeros, and then only gives its address.
#[repr(C)]
#[derive(Drop)]
pub struct Board {
    pub(crate) live: bool,
    pub(crate) held: Held,
    ghost agrees: { live ≡ is_some held.session },
    /// It is asked what broke first.
    ghost watched: { IfSome held.session (λ s. s.asked.watched ≡ true) } by { Prim.hlevel props },
}

impl Board {
    /// A board with the session.
    pub(crate) fn with(session: Box<Session>) -> Board
        requires { session.value.asked.watched ≡ true }
        ensures { result.held.session ≡ Some session.value }
    {
        Board {
            live: true,
            held: Held::of(session),
        }
    }

    /// Takes the session, and leaves the board without one.
    pub(crate) fn take(&mut self, alloc: Global) -> Box<Session>
        requires { IsSome self.old.held.session }
        ensures taken { Some result.value ≡ self.old.held.session }
        ensures watched { result.value.asked.watched ≡ true }
        ensures left { self.new.held.session ≡ None }
    {
        let empty = Board {
            live: false,
            held: Held::nothing(alloc),
        };
        let Board { live: _, held } = replace(self, empty);
        held.into_box()
    }
}
