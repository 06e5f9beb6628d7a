//! One worker.

ghost use Rattle.std.specs.Prelude.{◌≡◌, ◌≤◌, [], length, map, reverse, vec_len};
ghost use Rattle.host_lock.specs.Boxed.{own_step};
ghost use Rattle.host_lock.specs.Limits.{max_calls};
ghost use Rattle.host_lock.specs.Sessions.{IsOf};
ghost use Rattle.sessions.specs.Made.{HasMade};

use crate::report::Report;
use crate::script::Gate;
use crate::session_script::SessionOutput;
use host_lock::{Answer, BoxedStep, CallLog, Session, SharedHost};
use std::alloc::Global;
use std::snapshot::Snapshot;
use std::sync::Wait;
use stop_handlers::Decider;

/// Announces the calls for these steps, if the gate never waits.
fn announce<F: Decider + Send + Drop, G: Gate>(
    session: &mut Session,
    steps: &[BoxedStep<F>],
    gate: &G,
)
    requires { length steps.now ≤ max_calls }
    ensures { session.new ≡ session.old }
{
    if !gate.may_wait() {
        session.announce(steps.len() as u32);
    }
}

/// Makes the steps of a script in order, and the report of the replies, which begins as `draft`.
pub(crate) fn work<F: Decider + Send + Drop, J: CallLog + Send + Drop, T: Report, G: Gate, R: Wait>(
    rt: &R,
    alloc: Global,
    host: &SharedHost<F, J>,
    mut session: Session,
    steps: Vec<BoxedStep<F>>,
    report: Snapshot<T>,
    mut draft: T::Draft,
    gate: &G,
) -> SessionOutput<T::Output>
    requires of { IsOf host.now session }
    requires fresh { (session.calls ≡ 0) × (session.mine ≡ []) }
    requires few { vec_len steps ≤ max_calls }
    requires begun { T.drafted draft report.value session.uid (vec_len steps) [] }
    ensures did { HasMade session (map own_step steps.items) (T.made_of result.output) result.session }
    ensures tells { T.tells report.value session.uid result.output }
{
    let uid = session.uid();
    announce(&mut session, steps.as_slice(), gate);
    for step in steps {
        let index = session.calls_made() + 1;
        gate.before(uid, index);
        let Answer::Reply(reply) = host.call(rt, alloc, &mut session, step) else {
            unreachable!()
        };
        T::add(&mut draft, alloc, reply);
        gate.after(uid, index);
    }
    let _ = report;
    SessionOutput {
        session,
        output: T::end(draft),
    }
}

/// Returns the items in reverse order.
pub(crate) fn into_reversed<T>(mut items: Vec<T>) -> Vec<T>
    ensures items { result.items ≡ reverse items.items }
    ensures len { vec_len result ≡ vec_len items }
{
    items.as_mut_slice().reverse();
    items
}
