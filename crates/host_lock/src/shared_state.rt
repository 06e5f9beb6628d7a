//! The state in the slot.

ghost use Rattle.std.specs.Prelude.{◌≡◌, ℕ, [], ◌∷◌, ◌++◌, List, true, false};
ghost use Rattle.requests.specs.Isolation.{reply_of, host_after};
ghost use Rattle.step_types.specs.Replies.{is_memory};
ghost use Rattle.step_types.specs.Replies.{is_listing};
ghost use Rattle.host_lock.specs.Journal.{replay, entry, IsLegal};
ghost use Rattle.host_lock.specs.History.{history};

use crate::call_log::CallLog;
use crate::step::{OwnHandler, make};
use pid_blocks::{Errno, Uid};
use requests::{Host, PlainStep, Reply, Step};
use std::alloc::Global;
use std::marker::Model;
use std::snapshot::Snapshot;
use stop_handlers::Decider;

/// The host, what is kept of the journal, and the host at opening, which only contracts see. The journal is legal from
/// that host, and the present host is its replay. The host is large, so it is on the heap: each call takes the state out of its slot
/// and puts it back.
#[derive(Drop)]
pub struct SharedState<F: Decider + Send + Drop, J: CallLog + Send + Drop> {
    pub(crate) host: Box<Host<F>>,
    pub(crate) journal: J,
    pub(crate) start: Snapshot<Host<F>>,
}

impl<F: Decider + Send + Drop, J: CallLog + Send + Drop> Model for SharedState<F, J> {
    ghost use Rattle.std.specs.Prelude.{◌≡◌, List};
    ghost use Rattle.host_lock.specs.History.{History};
    ghost use Rattle.host_lock.specs.Journal.{asked, replay, IsLegal};
    ghost use Rattle.requests.specs.Isolation.{Users};

    ghost Value = { History };

    ghost view = { λ h. record { start = h.start.value; log = J.entries h.journal } };

    ghost invariant = { λ h. IsLegal h.start.value (J.entries h.journal) × (h.host.value ≡ replay h.start.value (J.entries h.journal)) × Users (asked (J.entries h.journal)) };
}

/// Makes a step on the host. A step changes nothing if memory ran out, or if the reply is a list.
#[inline(always)]
fn answered<F: Decider + Send + Drop, H: OwnHandler<F>>(
    host: &mut Host<F>,
    alloc: Global,
    user: Uid,
    step: Step<H>,
) -> Reply
    ensures made { is_memory result ≡ false → (result ≡ reply_of user (H.plain step) host.old) × (host.new ≡ host_after user (H.plain step) host.old) }
    ensures memory { is_memory result ≡ true → host.new ≡ host.old }
    ensures list { is_memory result ≡ false → is_listing result ≡ true → host.new ≡ host.old }
{
    host.assert_invariant();
    make(alloc, user, step, host)
}

impl<F: Decider + Send + Drop, J: CallLog + Send + Drop> SharedState<F, J> {
    /// Makes a step, and adds it to the journal as `plain`, the same step. Changes nothing if memory runs out.
    #[inline(always)]
    pub(crate) fn make<H: OwnHandler<F>>(
        &mut self,
        alloc: Global,
        user: Uid,
        session: usize,
        step: Step<H>,
        plain: &PlainStep,
    ) -> Reply
        requires plain { plain.now ≡ H.plain step }
        ensures made { is_memory result ≡ false →
            (result ≡ reply_of user (H.plain step) (replay self.old.start self.old.log))
            × (self.new ≡ history self.old.start (self.old.log ++ entry user session (H.plain step) result ∷ [])) }
        ensures legal { IsLegal self.new.start self.new.log }
        ensures memory { is_memory result ≡ true → self.new ≡ self.old }
    {
        let _number = user.get();
        let SharedState { host, journal, .. } = self;
        if journal.make_room().is_err() {
            return Reply::Errno(Errno::ENOMEM);
        }
        let reply = answered(host.as_mut(), alloc, user, step);
        if reply.is_memory() {
            return reply;
        }
        let Ok(()) = journal.add(alloc, user, session, plain, &reply) else {
            return Reply::Errno(Errno::ENOMEM);
        };
        reply
    }
}
