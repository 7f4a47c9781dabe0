//! A session on the heap, as its address alone.

ghost use Rattle.std.specs.Prelude.{◌≡◌, Option, Some, None, IsSome};
ghost use Rattle.lf_verdict.specs.Seen.{Seen};

use crate::unboxed::Unboxed;
use lf_verdict::Session;
use std::alloc::Global;
use std::marker::Model;

/// The address of a session, or null. C may keep this struct, since no type of it is generic and its pointer is one to
/// bytes. A drop would not free the session, so none is ever dropped with one.
#[repr(C)]
#[derive(Drop)]
pub struct Held {
    at: *mut u8,
    alloc: Global,
    ghost session: { Option Seen },
}

impl Model for Held {
    ghost use Rattle.lf_verdict.specs.contracts.session.Session.{the_row};
    ghost use Rattle.library_c.specs.Held.{held_owns};

    ghost also_owns = { λ h. held_owns the_row h.alloc h.at h.session };
}

impl Held {
    /// No session.
    pub(crate) fn nothing(alloc: Global) -> Held
        ensures { result.session ≡ None }
    {
        let at = std::ptr::null_mut();
        Held { at, alloc }
    }

    /// Forgets the type of what is at the address.
    fn hide(session: Unboxed<Session, Global>) -> Held
        ensures { result.session ≡ Some session.value }
    {
        let Unboxed { at, alloc } = session;
        let at = at as *mut u8;
        Held { at, alloc }
    }

    /// Says the type again.
    fn show(self) -> Unboxed<Session, Global>
        requires { IsSome self.session }
        ensures { Some result.value ≡ self.session }
    {
        let Held { at, alloc } = self;
        let at = at as *mut Session;
        Unboxed { at, alloc }
    }

    /// The session, which its box owned so far.
    pub(crate) fn of(session: Box<Session>) -> Held
        ensures { result.session ≡ Some session.value }
    {
        Held::hide(Unboxed::of(session))
    }

    /// The session in a box again.
    pub(crate) fn into_box(self) -> Box<Session>
        requires { IsSome self.session }
        ensures { Some result.value ≡ self.session }
    {
        self.show().into_box()
    }
}
