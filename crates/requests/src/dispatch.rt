//! The work of a step, by its kind.

ghost use Rattle.std.specs.Prelude.{◌≡◌, ◌≤◌, [], None, true, false, length, get_or, is_some};
ghost use Rattle.pid_blocks.specs.Blocks.{slot};
ghost use Rattle.trace_rows.specs.Facts.{IsSound};
ghost use Rattle.requests.specs.Callers.{IsCaller};
ghost use Rattle.requests.specs.Hosts.{machine_of};
ghost use Rattle.requests.specs.Machine.{outcome_of};
ghost use Rattle.requests.specs.Memory.{Attempts, takes_memory};
ghost use Rattle.step_types.specs.Plain.{bare};
ghost use Rattle.requests.specs.Step.{calls, uncalled};
ghost use Rattle.step_types.specs.Plain.{caller_of, installs};

use crate::handle::handle;
use crate::handlers::HandlerTable;
use crate::kill::kill;
use crate::list::list;
use crate::ptrace::ptrace;
use crate::sigaction::sigaction;
use crate::spawn::spawn;
use crate::turn::turn;
use crate::wait::wait;
use crate::{Reply, Step};
use pid_blocks::Uid;
use proc_table::{ProcData, Tables};
use std::alloc::Global;
use stop_handlers::Decider;
use trace_rows::Settings;

/// Makes a step without a caller. Refused with ENOMEM if memory runs out, which changes nothing.
pub fn uncalled<F: Decider + Send + Drop, H>(
    tables: &mut Tables,
    handlers: &HandlerTable<F>,
    settings: Settings,
    user: Uid,
    step: &Step<H>,
) -> Reply
    requires sound { IsSound tables.old.rows }
    requires none { caller_of (bare step.now) ≡ None }
    ensures { let m = machine_of settings tables.old handlers.now in
        Attempts (takes_memory user (bare step.now) m) (outcome_of (uncalled user (bare step.now) m)) tables.old.rows
        tables.new.rows result }
{
    match *step {
        Step::Turn { tid, act } => turn(tables, settings, user, tid, act),
        _ => spawn(tables, user),
    }
}

/// Makes a step of a caller, a process that runs, unless it installs a handler. Refused with ENOMEM if memory runs out,
/// which changes nothing.
#[inline(always)]
pub fn called<F: Decider + Send + Drop, H>(
    tables: &mut Tables,
    handlers: &HandlerTable<F>,
    settings: Settings,
    alloc: Global,
    user: Uid,
    caller: &ProcData,
    step: &Step<H>,
) -> Reply
    requires sound { IsSound tables.old.rows }
    requires few { length (get_or handlers.now (slot user) []) ≤ 64 }
    requires caller { IsCaller user caller.now tables.old.rows }
    requires asked { is_some (caller_of (bare step.now)) ≡ true }
    requires other { installs (bare step.now) ≡ false }
    ensures { let m = machine_of settings tables.old handlers.now in
        Attempts (takes_memory user (bare step.now) m) (outcome_of (calls user (bare step.now) caller.now m)) tables.old.rows
        tables.new.rows result }
{
    match *step {
        Step::List { .. } => list(tables, alloc, user),
        Step::Sigaction {
            sig,
            disposition,
            ..
        } => sigaction(tables, caller, sig, disposition),
        Step::Kill { which, sig, .. } => kill(tables, settings, user, caller.pid, which, sig),
        Step::Wait4 { which, options, .. } => wait(tables, caller, which, options),
        Step::Handle { .. } => handle(tables, handlers, settings, user, caller),
        Step::Ptrace {
            request,
            target,
            arg,
            ..
        } => ptrace(tables, alloc, settings, user, caller, request, target, arg),
        _ => unreachable!(),
    }
}
