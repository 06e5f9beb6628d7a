//! PT_TRACE_ME and PT_ATTACH of ptrace(2), which begin the tracing of a process.

ghost use Rattle.std.specs.Prelude.{◌≡◌, ◌==◌, Some, None, IfSome, if◌then◌else◌};
ghost use Rattle.lwp_table.specs.Lwps.{first_lwp};
ghost use Rattle.proc_table.specs.Kept.{IsRow};
ghost use Rattle.proc_table.specs.Processes.{process_of};
ghost use Rattle.proc_table.specs.Rows.{change_process};
ghost use Rattle.requests.specs.Outcome.{Gives};
ghost use Rattle.requests.specs.Ptrace.{closes_chain, traced_by, trace_me, stop_first, attach};

use crate::stopping::plain;
use crate::{MAX_PROCESSES, Reply};
use event_masks::default_mask;
use pid_blocks::{Errno, Pid};
use proc_table::{ProcData, Tables};
use signals::Signal;
use trace_rows::stop;
use trace_stop::tracer_of;

/// PT_TRACE_ME: the caller's parent becomes its tracer. Refused with EBUSY if the caller is traced, with EPERM if
/// no process is its parent, and with EINVAL if it would trace itself by a chain of tracers.
#[tactic(auto, using(std::proofs::lemmas::Bool::Decides::nat_tests))]
pub fn trace_me(tables: &mut Tables, caller: &ProcData) -> Reply
    requires at { process_of caller.now.pid tables.old.rows.processes ≡ Some caller.now }
    ensures { Gives (trace_me caller.now tables.old.rows) tables.new.rows result }
{
    if caller.tracer.is_some() {
        return Reply::Errno(Errno::EBUSY);
    }
    let Some(parent) = parent_of(tables, caller) else {
        return Reply::Errno(Errno::EPERM);
    };
    if closes_chain(tables, caller.pid, parent) {
        return Reply::Errno(Errno::EINVAL);
    }
    trace(tables, caller, parent);
    Reply::Done
}

/// PT_ATTACH: the caller becomes the tracer of the process, whose first LWP stops with SIGSTOP. Refused with EINVAL for
/// the caller itself, with EBUSY if the process is traced, and with EINVAL if the caller would trace itself by a
/// chain of tracers.
#[tactic(auto, using(proc_table::proofs::Rows::found_row, crate::proofs::StoppedTracee::row_changed))]
pub fn attach(tables: &mut Tables, caller: &ProcData, process: &ProcData) -> Reply
    requires caller { process_of caller.now.pid tables.old.rows.processes ≡ Some caller.now }
    requires at { process_of process.now.pid tables.old.rows.processes ≡ Some process.now }
    ensures { Gives (attach caller.now process.now tables.old.rows) tables.new.rows result }
{
    if process.pid == caller.pid {
        return Reply::Errno(Errno::EINVAL);
    }
    if process.tracer.is_some() {
        return Reply::Errno(Errno::EBUSY);
    }
    if closes_chain(tables, process.pid, caller.pid) {
        return Reply::Errno(Errno::EINVAL);
    }
    trace(tables, process, caller.pid);
    stop_first(tables, process.pid);
    Reply::Done
}

/// Returns the parent of a process, if it is another process.
fn parent_of(tables: &Tables, process: &ProcData) -> Option<Pid>
    requires at { process_of process.now.pid tables.now.rows.processes ≡ Some process.now }
    ensures parent { result ≡ (if process.now.parent == 1 then None else Some process.now.parent) }
    ensures row { IfSome result (λ n. IsRow tables.now.rows n) }
{
    if process.parent == 1 {
        return None;
    }
    match tables.process_by_number(process.parent) {
        Some(parent) => Some(parent.pid),
        None => None,
    }
}

/// Returns whether the chain of tracers from the process `from` leads to `pid`. A chain has fewer links than a user has
/// processes at most.
#[tactic(auto, using(crate::proofs::ClosesChain::link_laws))]
fn closes_chain(tables: &Tables, pid: Pid, from: Pid) -> bool
    ensures { result ≡ closes_chain pid from tables.now.rows }
{
    let mut at = from;
    for links in 0..MAX_PROCESSES {
        let Some(tracer) = tracer_of(tables, at) else {
            return false;
        };
        if tracer == pid {
            return true;
        }
        at = tracer;
    }
    false
}

/// Sets the tracer of a process, with the default event mask.
#[tactic(auto, using(proc_table::proofs::Every::every_found))]
fn trace(tables: &mut Tables, process: &ProcData, tracer: Pid)
    requires at { process_of process.now.pid tables.old.rows.processes ≡ Some process.now }
    requires tracer { IsRow tables.old.rows tracer }
    ensures rows { tables.new.rows ≡ change_process process.now.pid (traced_by tracer) tables.old.rows }
{
    tables.assert_invariant();
    tables.set_process(traced_by(process, tracer));
}

/// Returns the row of the process with this tracer.
fn traced_by(process: &ProcData, tracer: Pid) -> ProcData
    ensures { result ≡ traced_by tracer process.now }
{
    ProcData {
        tracer: Some(tracer),
        mask: default_mask(),
        continued: false,
        ..*process
    }
}

/// Stops the process with SIGSTOP by its first LWP.
fn stop_first(tables: &mut Tables, pid: Pid)
    requires there { IsRow tables.old.rows pid }
    ensures rows { tables.new.rows ≡ stop_first pid (first_lwp pid tables.old.rows.lwps) tables.old.rows }
{
    if let Some(lwp) = tables.first_lwp(pid) {
        stop(tables, pid, lwp.tid, &plain(Signal::STOP));
    }
}
