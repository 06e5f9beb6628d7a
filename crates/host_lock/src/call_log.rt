//! What a shared host keeps of its answered calls.

ghost use Rattle.std.specs.Prelude.{⊤, ◌≡◌, ◌<◌, [], ◌∷◌, ◌++◌, List, true, IfOk, OnOk, OnErr, vec_len, vec_capacity};
ghost use Rattle.step_types.specs.Replies.{is_listing};
ghost use Rattle.host_lock.specs.Journal.{entry};
ghost use Rattle.host_lock.specs.declared.journal.Entry.{Entry};

use crate::journal::Entry;
use pid_blocks::Uid;
use requests::{PlainStep, Reply};
use std::alloc::{AllocError, Global};
use std::marker::Model;
use std::snapshot::Snapshot;

/// What a shared host keeps of its answered calls: all of them, or nothing. Contracts see all of them in both cases.
pub trait CallLog: Sized {
    /// The answered calls, in the order in which the host made them.
    ghost entries: { Self → List Entry };

    /// There is room for one more.
    ghost has_room: { Self → Type 0 };

    /// Creates a log of no calls. It allocates no memory.
    fn empty(alloc: Global) -> Self
        ensures { entries result ≡ [] };

    /// Creates a log of no calls, with room for `calls` of them. An error means out of memory.
    fn with_room(alloc: Global, calls: usize) -> Result<Self, AllocError>
        ensures { IfOk result (λ log. entries log ≡ []) };

    /// Makes room for one more call. An error means out of memory.
    fn make_room(&mut self) -> Result<(), AllocError>
        ensures same { entries self.new ≡ entries self.old }
        ensures room { OnOk result (has_room self.new) };

    /// Adds a call with a copy of its reply. An error means out of memory, which only the copy of a list takes, and adds
    /// nothing.
    fn add(
        &mut self,
        alloc: Global,
        user: Uid,
        session: usize,
        step: &PlainStep,
        reply: &Reply,
    ) -> Result<(), AllocError>
        requires { has_room self.old }
        ensures added { OnOk result (entries self.new ≡ entries self.old ++ entry user session step.now reply.now ∷ []) }
        ensures same { OnErr result (entries self.new ≡ entries self.old) }
        ensures refused { OnErr result (is_listing reply.now ≡ true) };
}

/// Keeps all calls.
impl CallLog for Vec<Entry> {
    ghost entries = { λ v. v.items };

    ghost has_room = { λ v. vec_len v < vec_capacity v };

    fn empty(alloc: Global) -> Vec<Entry> {
        Vec::new(alloc)
    }

    fn with_room(alloc: Global, calls: usize) -> Result<Vec<Entry>, AllocError> {
        Vec::with_capacity(alloc, calls)
    }

    fn make_room(&mut self) -> Result<(), AllocError> {
        self.reserve(1)?;
        Ok(())
    }

    fn add(
        &mut self,
        alloc: Global,
        user: Uid,
        session: usize,
        step: &PlainStep,
        reply: &Reply,
    ) -> Result<(), AllocError> {
        let reply = reply.copy(alloc)?;
        let entry = Entry {
            uid: user,
            session,
            step: *step,
            reply,
        };
        self.push_reserved(entry);
        Ok(())
    }
}

/// A call, and the calls before it, which only contracts see.
#[derive(Drop)]
struct EarlierCalls {
    before: Option<Snapshot<EarlierCalls>>,
    uid: Uid,
    session: usize,
    step: Snapshot<PlainStep>,
    reply: Snapshot<Reply>,
}

impl Model for EarlierCalls {
    ghost use Rattle.std.specs.Prelude.{List, ◌++◌, ◌∷◌, [], length};
    ghost use Rattle.host_lock.specs.declared.journal.Entry.{Entry};
    ghost use Rattle.host_lock.specs.CallLog.{known_in};
    ghost use Rattle.host_lock.specs.Journal.{entry};

    ghost Value = { List Entry };

    ghost view = { λ c. known_in c.before ++ entry c.uid c.session c.step.value c.reply.value ∷ [] };

    ghost size = { length };
}

/// Keeps no call. Only contracts see the calls.
#[derive(Drop)]
pub struct Unkept {
    calls: Option<Snapshot<EarlierCalls>>,
}

impl Model for Unkept {
    ghost use Rattle.std.specs.Prelude.{List};
    ghost use Rattle.host_lock.specs.declared.journal.Entry.{Entry};
    ghost use Rattle.host_lock.specs.CallLog.{known_in};

    ghost Value = { List Entry };

    ghost view = { λ u. known_in u.calls };
}

impl CallLog for Unkept {
    ghost entries = { λ u. u };

    ghost has_room = { λ _. ⊤ };

    fn empty(_alloc: Global) -> Unkept {
        Unkept { calls: None }
    }

    fn with_room(_alloc: Global, _calls: usize) -> Result<Unkept, AllocError> {
        Ok(Unkept { calls: None })
    }

    fn make_room(&mut self) -> Result<(), AllocError> {
        Ok(())
    }

    fn add(
        &mut self,
        _alloc: Global,
        user: Uid,
        session: usize,
        step: &PlainStep,
        reply: &Reply,
    ) -> Result<(), AllocError> {
        let calls = EarlierCalls {
            before: self.calls.take(),
            uid: user,
            session,
            step: Snapshot::of(step),
            reply: Snapshot::of(reply),
        };
        self.calls = Some(Snapshot::of(&calls));
        Ok(())
    }
}
