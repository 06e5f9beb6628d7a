//! Trace stops, and how processes run on from them, with their tracers or without.

ghost use Rattle.std.specs.Prelude.{◌≡◌, ◌==◌, ◌&&◌, not, IfSome, IsSome, Some, false, true};
ghost use Rattle.std.specs.Option.{IsSomeAnd};
ghost use Rattle.lwp_table.specs.Lwps.{lwp_of};
ghost use Rattle.proc_table.specs.Edits.{map_lwps};
ghost use Rattle.proc_table.specs.Processes.{process_of, reporting};
ghost use Rattle.proc_table.specs.Rows.{is_numbered};
ghost use Rattle.proc_table.specs.Kept.{IsRow};
ghost use Rattle.trace_rows.specs.Before.{MayStop};
ghost use Rattle.trace_rows.specs.Facts.{IsSound, MidStepInvariant};
ghost use Rattle.trace_rows.specs.Detach.{resumed, detached, steps};
ghost use Rattle.trace_rows.specs.Sound.{is_live_at};
ghost use Rattle.trace_rows.specs.Reports.{reporter, report_dropped, unreported};
ghost use Rattle.trace_rows.specs.Stop.{stop};

use crate::edits::{Edit, edit_lwps};
use crate::signaling::post_sigchld;
use crate::{Resumption, Stepping, StopInfo};
use event_masks::{EventMask, StopFlags};
use lwp_table::LwpData;
use pid_blocks::{Pid, Tid};
use proc_table::{ProcData, State, Tables};
use signals::SigSet;

/// Tests whether an LWP reports anything.
fn reports(l: &LwpData) -> bool
    ensures { result ≡ not ((l.now.flags.0 == 0) && ((l.now.child == 0) && (l.now.code == 0))) }
{
    !(l.flags == StopFlags::none() && l.child == 0 && l.code == 0)
}

/// Returns an LWP that reports nothing.
fn unreported(l: &LwpData) -> LwpData
    ensures { result ≡ unreported l.now }
{
    LwpData {
        flags: StopFlags::none(),
        child: 0,
        code: 0,
        ..*l
    }
}

/// Drops what an LWP has reported, and removes the LWP if it has exited.
#[tactic(auto, using(crate::proofs::Found::found_rows, crate::proofs::Reported::none_reported))]
fn drop_report(tables: &mut Tables, tid: Tid)
    requires { IsSome (lwp_of tid tables.old.rows.lwps) }
    ensures { tables.new.rows ≡ report_dropped (lwp_of tid tables.old.rows.lwps) tables.old.rows }
{
    let l = tables.lwp(tid).unwrap();
    if l.flags.shows(StopFlags::PL_FLAG_EXITED) {
        tables.remove_lwp(tid);
    } else if reports(&l) {
        tables.set_lwp(unreported(&l));
    }
}

/// Drops what a process's reporting LWP has reported, if there is one.
fn drop_stop(tables: &mut Tables, reporting: &Option<Tid>)
    requires { IfSome reporting.now (λ tid. IsSome (lwp_of tid tables.old.rows.lwps)) }
    ensures { tables.new.rows ≡ report_dropped (reporter reporting.now tables.old.rows.lwps) tables.old.rows }
{
    if let Some(tid) = reporting {
        drop_report(tables, *tid);
    }
}

/// Ends the tracing of a live process. The signals of the set `lost` leave its pending sets. Allocates
/// nothing.
#[tactic(auto, using(crate::proofs::Found::live_row))]
pub fn detach_row(tables: &mut Tables, pid: Pid, lost: SigSet)
    requires sound { IsSound tables.old.rows }
    requires live { is_live_at pid tables.old.rows ≡ true }
    ensures rows { tables.new.rows ≡ detached (is_numbered pid) (λ p. lost) tables.old.rows }
    ensures sound { IsSound tables.new.rows }
{
    let p = tables.process(pid).unwrap();
    let unwanted = p.dispositions.nothing();
    tables.set_process(ProcData {
        state: State::Run,
        tracer: None,
        mask: EventMask(0),
        pending: p.pending.difference(lost).difference(unwanted),
        ..p
    });
    drop_stop(tables, &p.reporting());
    edit_lwps(tables, pid, &Edit::Detach { lost, unwanted });
}

/// Sets which LWPs of a process step.
fn step_lwps(tables: &mut Tables, pid: Pid, stepping: Stepping)
    ensures { tables.new.rows ≡ map_lwps pid (steps stepping) tables.old.rows }
{
    match stepping {
        Stepping::Unchanged => {}
        _ => edit_lwps(tables, pid, &Edit::Step(stepping)),
    }
}

/// Lets a process run on from a trace stop, with its event mask and its LWPs' stepping as the resumption says. Allocates
/// nothing.
pub fn resume_row(tables: &mut Tables, process: &ProcData, how: &Resumption)
    requires stands { MidStepInvariant tables.old.rows }
    requires at { process_of process.now.pid tables.old.rows.processes ≡ Some process.now }
    ensures { tables.new.rows ≡ resumed how.now process.now.pid tables.old.rows }
{
    tables.assert_invariant();
    tables.set_process(ProcData {
        state: State::Run,
        mask: process.mask.with(how.adds),
        ..*process
    });
    drop_stop(tables, &process.reporting());
    step_lwps(tables, process.pid, how.stepping);
}

/// Stops a process for its tracer by an LWP of it, and notifies the tracer.
#[tactic(auto, using(crate::proofs::Found::found_rows))]
pub fn stop(tables: &mut Tables, pid: Pid, tid: Tid, shown: &StopInfo)
    requires process { IsRow tables.old.rows pid }
    requires lwp { IsSomeAnd (lwp_of tid tables.old.rows.lwps) (λ l. l.pid ≡ pid) }
    ensures rows { tables.new.rows ≡ stop pid tid shown.now tables.old.rows }
    ensures sound { MayStop pid tid shown.now tables.old.rows → IsSound tables.new.rows }
{
    let p = tables.process(pid).unwrap();
    let l = tables.lwp(tid).unwrap();
    let state = State::Trace {
        tid,
        sig: shown.sig,
        seen: false,
    };
    tables.set_state(pid, state);
    tables.set_lwp(LwpData {
        flags: shown.flags,
        child: shown.child,
        code: shown.code,
        ..l
    });
    if let Some(tracer) = p.tracer {
        post_sigchld(tables, tracer.get());
    }
}
