//! A boxed session, or none, behind one pointer.
ghost use Rattle.std.specs.Prelude.{◌≡◌, Option, None, Some, IsSome};
ghost use Rattle.open_sessions.specs.Calls.{OpenSession};
ghost use Rattle.tracehost_c.specs.Handle.{session_coded, held_owns};

mod parts;

use open_sessions::Session;
use parts::Parts;
use std::alloc::Global;
use std::marker::Model;

/// A session in memory of its own, or none.
#[repr(C)]
#[derive(Drop)]
pub struct Held {
    ptr: *mut u8,
    alloc: Global,
    pub ghost session: { Option OpenSession } by { session_coded },
}

impl Model for Held {
    ghost also_owns = { λ h. held_owns h.alloc h.ptr h.session };
}

impl Held {
    /// Keeps the session.
    pub fn of_box(session: Box<Session>) -> Held
        ensures { result.session ≡ Some session.value }
    {
        Held::of_parts(Parts::of(session))
    }

    /// Returns the session.
    pub fn into_box(self) -> Box<Session>
        requires { IsSome self.session }
        ensures { self.session ≡ Some result.value }
    {
        self.into_parts().into_box()
    }

    /// Returns what keeps no session.
    pub fn none(alloc: Global) -> Held
        ensures { result.session ≡ None }
    {
        Held {
            ptr: std::ptr::null_mut(),
            alloc,
        }
    }

    fn of_parts(parts: Parts<Session, Global>) -> Held
        ensures { result.session ≡ Some parts.value }
    {
        let Parts { ptr, alloc } = parts;
        Held {
            ptr: ptr as *mut u8,
            alloc,
        }
    }

    fn into_parts(self) -> Parts<Session, Global>
        requires { IsSome self.session }
        ensures { self.session ≡ Some result.value }
    {
        let Held { ptr, alloc } = self;
        Parts {
            ptr: ptr as *mut Session,
            alloc,
        }
    }
}
