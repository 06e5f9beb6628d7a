//! A session that is open, or none, as C holds it.
ghost use Rattle.std.specs.Prelude.{◌≡◌, None, Some, IsSome};
ghost use Rattle.std.specs.Option.{is_some};
ghost use Rattle.tracehost_c.specs.Handle.{open_tag};

mod held;

use held::Held;
use open_sessions::Session;
use std::alloc::Global;

/// The tag of an open handle. Closing clears it, and memory that was never a handle hardly has it.
const OPEN: u64 = 0x6e65_706f_7473_6f68;

/// A session that is open, or none.
#[repr(C)]
#[derive(Drop)]
pub struct Tracehost {
    held: Held,
    tag: u64,
    ghost agrees: { tag ≡ open_tag held.session },
}

impl Tracehost {
    /// Returns the handle of no session.
    pub fn closed(alloc: Global) -> Tracehost
        ensures { result.held.session ≡ None }
    {
        Tracehost {
            held: Held::none(alloc),
            tag: 0,
        }
    }

    /// Returns the handle of a session.
    pub fn of(session: Box<Session>) -> Tracehost
        ensures { result.held.session ≡ Some session.value }
    {
        Tracehost {
            held: Held::of_box(session),
            tag: OPEN,
        }
    }

    /// Tests whether the handle is open.
    pub fn is_open(&self) -> bool
        ensures { result ≡ is_some self.now.held.session }
    {
        self.tag == OPEN
    }

    /// Returns the session.
    pub fn session(self) -> Box<Session>
        requires { IsSome self.held.session }
        ensures { self.held.session ≡ Some result.value }
    {
        self.held.into_box()
    }
}
