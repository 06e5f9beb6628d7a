//! Signals posted to live processes and their LWPs, as kill(2) and thr_kill(2) post them.

ghost use Rattle.std.specs.Prelude.{◌≡◌, ◌∷◌, [], None, Some, true};
ghost use Rattle.proc_table.specs.Processes.{process_of};
ghost use Rattle.proc_table.specs.Rows.{change, change_process, is_numbered};
ghost use Rattle.proc_table.specs.declared.State.TheVariants.{Run};
ghost use Rattle.proc_table.specs.Kept.{IsRow};
ghost use Rattle.trace_rows.specs.Facts.{IsSound};
ghost use Rattle.trace_rows.specs.Before.{IsSoundButPending, MayTell};
ghost use Rattle.trace_rows.specs.Post.{unwanted, continues, settle, posted_process, posted_lwp, notified, notifies, posted};
ghost use Rattle.trace_rows.specs.Stop.{tracers};

use crate::edits::{add_pending, post_lwps, settle_lwps};
use pid_blocks::{Pid, Tid};
use proc_table::{ProcData, State, Tables};
use signals::{SigSet, Signal};

/// Returns the signals that an untraced process's pending sets lose, since their action is nothing.
pub fn unwanted(p: &ProcData) -> SigSet
    ensures { result ≡ unwanted p.now }
{
    if p.tracer.is_some() {
        SigSet::empty()
    } else {
        p.dispositions.nothing()
    }
}

/// Removes the signals whose action is nothing from an untraced process's pending sets.
#[tactic(auto, using(crate::proofs::Found::found_rows))]
pub fn settle(tables: &mut Tables, pid: Pid)
    requires there { IsRow tables.old.rows pid }
    ensures rows { tables.new.rows ≡ settle pid tables.old.rows }
    ensures sound { IsSoundButPending pid tables.old.rows → IsSound tables.new.rows }
{
    let p = tables.process(pid).unwrap();
    let lost = unwanted(&p);
    tables.set_pending(pid, p.pending.difference(lost));
    settle_lwps(tables, pid, lost);
}

/// Tests whether the signal continues the process, which job control has stopped.
fn continues(signal: Signal, p: &ProcData) -> bool
    ensures { result ≡ continues signal p.now }
{
    signal == Signal::CONT && matches!(p.state, State::Job { .. })
}

/// Lets a process that job control has stopped run again, with these pending signals.
#[inline(never)]
#[tactic(auto, using(proc_table::proofs::Seen::has_row))]
fn end_job_stop(tables: &mut Tables, pid: Pid, pending: SigSet)
    requires { IsRow tables.old.rows pid }
    ensures { tables.new.rows
        ≡ change_process pid (λ q. record q { state = Run; continued = true; pending = pending }) tables.old.rows }
{
    let p = tables.process(pid).unwrap();
    tables.set_process(ProcData {
        state: State::Run,
        continued: true,
        pending,
        ..p
    });
}

/// Puts a signal into the pending set of a process or of an LWP of it. SIGCONT continues a process that job
/// control has stopped. Then the result is the process's parent, which the caller notifies.
#[inline(always)]
#[tactic(auto, using(proc_table::proofs::Rows::found_row))]
fn put(tables: &mut Tables, p: &ProcData, signal: Signal, to: &Option<Tid>) -> Option<u32>
    requires { process_of p.now.pid tables.old.rows.processes ≡ Some p.now }
    ensures rows { tables.new.rows ≡ change (is_numbered p.now.pid) (posted_process signal to.now) (posted_lwp signal to.now) tables.old.rows }
    ensures notifies { tracers result ≡ notifies signal (process_of p.now.pid tables.old.rows.processes) }
{
    tables.assert_invariant();
    let lost = unwanted(p);
    let pending = add_pending(p.pending, signal, to.is_none()).difference(lost);
    let parent = if continues(signal, p) {
        end_job_stop(tables, p.pid, pending);
        Some(p.parent)
    } else {
        tables.set_pending(p.pid, pending);
        None
    };
    post_lwps(tables, p.pid, signal, to, lost);
    parent
}

/// Posts SIGCHLD to the process with this number, if any.
#[tactic(auto, using(crate::proofs::Notified::tells_none))]
pub fn post_sigchld(tables: &mut Tables, number: u32)
    ensures rows { tables.new.rows ≡ notified (number ∷ []) tables.old.rows }
    ensures sound { IsSound tables.old.rows → MayTell tables.old.rows number → IsSound tables.new.rows }
{
    if let Some(p) = tables.process_by_number(number) {
        let _ = put(tables, &p, Signal::CHLD, &None);
    }
}

/// Posts a signal other than SIGKILL to a process, or to an LWP of it. The caller has the process's row. Allocates
/// nothing.
#[inline(always)]
#[tactic(auto, using(crate::proofs::Notified::tells_none))]
pub fn post_other(tables: &mut Tables, p: &ProcData, signal: Signal, to: &Option<Tid>)
    requires { process_of p.now.pid tables.old.rows.processes ≡ Some p.now }
    ensures { tables.new.rows ≡ posted signal to.now p.now.pid tables.old.rows }
{
    if let Some(parent) = put(tables, p, signal, to) {
        post_sigchld(tables, parent);
    }
}
