//! What the ends of processes leave of the installed handlers.

ghost use Rattle.std.specs.Prelude.{◌≡◌, [], set, get_or, filter, if◌then◌else◌};
ghost use Rattle.pid_blocks.specs.Blocks.{slot};
ghost use Rattle.trace_rows.specs.Sound.{is_live_at};
ghost use Rattle.requests.specs.Ending.{may_end, passes_signal};
ghost use Rattle.step_types.specs.Plain.{bare};

use crate::handlers::HandlerTable;
use crate::{Reply, Request, Step};
use pid_blocks::Uid;
use proc_table::Tables;
use signals::Signal;
use stop_handlers::Decider;

/// Returns whether a request passes a signal to its tracee, which may end it.
fn passes_signal(request: Request, arg: u32) -> bool
    ensures { result ≡ passes_signal request arg }
{
    match request {
        Request::Kill => true,
        Request::Continue
        | Request::Step
        | Request::Detach
        | Request::ToSce
        | Request::ToScx
        | Request::Syscall => arg != 0,
        _ => false,
    }
}

/// Returns whether a step with this reply may have ended a process.
fn may_end<H>(step: &Step<H>, reply: &Reply) -> bool
    ensures { result ≡ may_end (bare step.now) reply.now }
{
    match *step {
        Step::Kill { sig, .. } => sig == Signal::KILL.number(),
        Step::Handle { .. } => matches!(reply, Reply::Handled { .. }),
        Step::Ptrace { request, arg, .. } => {
            matches!(reply, Reply::Done) && passes_signal(request, arg)
        }
        Step::Turn { .. } => matches!(reply, Reply::Ended(_)),
        _ => false,
    }
}

/// Drops the handlers of the user's processes that the step with this reply has ended.
pub fn drop_ended<F: Decider + Send + Drop, H>(
    handlers: &mut HandlerTable<F>,
    tables: &Tables,
    user: Uid,
    step: &Step<H>,
    reply: &Reply,
)
    ensures { handlers.new ≡ (if may_end (bare step.now) reply.now
        then set handlers.old (slot user) (filter (λ i. is_live_at i.debugger tables.now.rows) (get_or handlers.old (slot user) []))
        else handlers.old) }
{
    if may_end(step, reply) {
        handlers.drop_ended(user, tables);
    }
}
