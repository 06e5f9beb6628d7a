//! The decisions of a debugger's handlers about trace stops.

ghost use Rattle.std.specs.Prelude.{◌≡◌, ◌≤◌, [], Some, true, is_some, length, get_or};
ghost use Rattle.pid_blocks.specs.Blocks.{slot};
ghost use Rattle.proc_table.specs.Processes.{process_of, reporting};
ghost use Rattle.trace_rows.specs.Facts.{IsSound};
ghost use Rattle.requests.specs.Outcome.{Gives};
ghost use Rattle.requests.specs.Handle.{handled_by, handles_status, done, policies_in};

use crate::Reply;
use crate::handlers::HandlerTable;
use crate::ptrace::kill;
use event_masks::EventMask;
use lwp_table::LwpData;
use pid_blocks::{Errno, Pid, Tid, Uid};
use proc_table::{ProcData, State, Tables};
use signals::Signal;
use stop_handlers::{Decider, Decision, StopView};
use trace_rows::{Resumption, Settings, Stepping};
use trace_stop::{detach_process, resume_process};
use wait4::{Collected, Options, Status, collect};

/// Carries out a decision about the trace stop of a process.
fn carry_out(tables: &mut Tables, settings: Settings, process: &ProcData, decision: Decision)
    requires sound { IsSound tables.old.rows }
    requires at { process_of process.now.pid tables.old.rows.processes ≡ Some process.now }
    requires stopped { is_some (reporting process.now) ≡ true }
    ensures { tables.new.rows ≡ done settings decision process.now tables.old.rows }
{
    match decision {
        Decision::Decline => {}
        Decision::Leave => {}
        Decision::Continue(pass) => {
            let how = Resumption {
                adds: EventMask(0),
                stepping: Stepping::Nobody,
                pass,
            };
            resume_process(tables, settings, process, &how);
        }
        Decision::Detach(pass) => {
            detach_process(tables, settings, process, pass);
        }
        Decision::Kill => {
            kill(tables, settings, process);
        }
    }
}

/// Returns a stop of the LWP as handlers see it.
fn view_of(pid: Pid, tid: Tid, sig: Signal, lwp: &LwpData) -> StopView
    ensures { result ≡ record { pid = pid; tid = tid; sig = sig; flags = lwp.now.flags; child = lwp.now.child; code = lwp.now.code } }
{
    StopView {
        pid,
        tid,
        sig,
        flags: lwp.flags,
        child: lwp.child,
        code: lwp.code,
    }
}

/// Returns the reply for the collected status of a process. A trace stop goes to the caller's handlers.
fn ask<F: Decider + Send + Drop>(
    tables: &mut Tables,
    handlers: &HandlerTable<F>,
    settings: Settings,
    user: Uid,
    caller: Pid,
    process: &ProcData,
    status: Status,
) -> Reply
    requires sound { IsSound tables.old.rows }
    requires at { process_of process.now.pid tables.old.rows.processes ≡ Some process.now }
    requires few { length (get_or handlers.now (slot user) []) ≤ 64 }
    ensures { let policies = policies_in caller (get_or handlers.now (slot user) []) in
        Gives (handles_status settings policies status process.now tables.old.rows process.now.state)
        tables.new.rows result }
{
    let pid = process.pid;
    let State::Trace { tid, sig, .. } = process.state else {
        return Reply::Status { pid, status };
    };
    let Some(lwp) = tables.lwp(tid) else {
        return Reply::Status { pid, status };
    };
    let view = view_of(pid, tid, sig, &lwp);
    let decided = handlers.decided(user, caller, &view);
    carry_out(tables, settings, process, decided.decision);
    Reply::Handled {
        pid,
        status,
        view,
        index: decided.index,
        decision: decided.decision,
    }
}

/// Waits for any child, without blocking. A trace stop goes to the caller's handlers. Refused with ECHILD if there
/// is no child.
pub fn handle<F: Decider + Send + Drop>(
    tables: &mut Tables,
    handlers: &HandlerTable<F>,
    settings: Settings,
    user: Uid,
    caller: &ProcData,
) -> Reply
    requires sound { IsSound tables.old.rows }
    requires few { length (get_or handlers.now (slot user) []) ≤ 64 }
    ensures { let policies = policies_in caller.now.pid (get_or handlers.now (slot user) []) in
        Gives (handled_by settings policies caller.now.pid tables.old.rows) tables.new.rows result }
{
    let options = Options {
        untraced: false,
        continued: false,
    };
    match collect(tables, caller.pid, -1, options) {
        Collected::NoChild => Reply::Errno(Errno::ECHILD),
        Collected::Nothing => Reply::Nothing,
        Collected::Got(pid, status) => match tables.process(pid) {
            Some(process) => ask(
                tables, handlers, settings, user, caller.pid, &process, status,
            ),
            None => Reply::Status { pid, status },
        },
    }
}
