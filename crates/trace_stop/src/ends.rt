//! The end of a process, and of the processes that end with it.

ghost use Rattle.std.specs.Prelude.{◌≡◌, ℕ, ◌==◌, ◌||◌, true, false, MatchOption};
ghost use Rattle.proc_table.specs.Processes.{process_of};
ghost use Rattle.proc_table.specs.Rows.{is_numbered};
ghost use Rattle.trace_rows.specs.End.{tracer_of, lost_signals, left_alone, end};
ghost use Rattle.trace_rows.specs.Detach.{detached};
ghost use Rattle.trace_rows.specs.Facts.{IsSound};
ghost use Rattle.trace_stop.specs.Laws.{traces_live};
ghost use Rattle.trace_rows.specs.Sound.{is_live_at};
ghost use Rattle.trace_rows.specs.Sound.{is_end};
ghost use Rattle.trace_stop.specs.Descent.{kills, spares, lost_at, traces_live_above, IsLiveTracee, EndsToo};

use crate::leaf::end_leaf;
use pid_blocks::Pid;
use proc_table::{State, Tables};
use signals::{SigSet, Signal};
use trace_rows::{Settings, detach_row};

/// Returns a live process above a number that this process traces, if any.
#[tactic(auto, using(crate::proofs::Descents::walking))]
fn live_tracee_above(tables: &Tables, pid: Pid, number: u32) -> Option<Pid>
    ensures { MatchOption result (traces_live_above number pid tables.now.rows ≡ false) (IsLiveTracee pid tables.now.rows) }
{
    let mut after = number;
    while let Some(tracee) = tables.next_tracee(pid, after) {
        if tracee.is_live() {
            return Some(tracee.pid);
        }
        after = tracee.pid.get();
    }
    None
}

/// Returns a live process that this one traces, if any: one above the number `passed` if there is one.
#[tactic(auto, using(crate::proofs::Descents::sought))]
fn live_tracee(tables: &Tables, pid: Pid, passed: u32) -> Option<Pid>
    requires { IsSound tables.now.rows }
    ensures { MatchOption result (traces_live pid tables.now.rows ≡ false) (IsLiveTracee pid tables.now.rows) }
{
    match live_tracee_above(tables, pid, passed) {
        None if passed > 0 => live_tracee_above(tables, pid, 0),
        tracee => tracee,
    }
}

/// Returns the process itself or a process further down its tracees: one without live tracees. Of its own
/// tracees, those up to the number `passed` come last.
#[tactic(auto, using(crate::proofs::Descents::ends_below, crate::proofs::Descents::deeper))]
fn leaf_below(tables: &Tables, from: Pid, passed: u32) -> Pid
    requires { IsSound tables.now.rows }
    ensures leaf { traces_live result tables.now.rows ≡ false }
    ensures below { (p : ℕ) → EndsToo p tables.now.rows from → EndsToo p tables.now.rows result }
{
    let mut at = from;
    let mut above = passed;
    while let Some(tracee) = live_tracee(tables, at, above) {
        at = tracee;
        above = 0;
    }
    at
}

/// Returns the tracer of the process with this number, if there is such a process and it has one.
pub fn tracer_of(tables: &Tables, pid: Pid) -> Option<Pid>
    ensures { result ≡ tracer_of tables.now.rows.processes pid }
{
    match tables.process(pid) {
        Some(row) => row.tracer,
        None => None,
    }
}

/// Ends a process, its live tracees, their live tracees and so on, each before its tracer. Allocates nothing.
#[tactic(auto, using(crate::proofs::Descents::lives, crate::proofs::Descents::last_turn))]
fn end_with_tracees(tables: &mut Tables, pid: Pid, status: u32)
    requires sound { IsSound tables.old.rows }
    requires live { is_live_at pid tables.old.rows ≡ true }
    requires word { is_end status ≡ true }
    ensures { tables.new.rows ≡ end kills pid status tables.old.rows }
{
    let killed = Signal::KILL.number();
    let mut at = pid;
    let mut passed = 0;
    loop {
        let leaf = leaf_below(tables, at, passed);
        if leaf == pid {
            end_leaf(tables, pid, status);
            return;
        }
        let tracer = tracer_of(tables, leaf);
        end_leaf(tables, leaf, killed);
        at = tracer.unwrap_or(pid);
        passed = leaf.get();
    }
}

/// Returns the signals that a tracee loses when its debugger ends: SIGTRAP if the tracee is in a trace stop.
fn lost_signals(tables: &Tables, tracee: Pid) -> SigSet
    ensures { result ≡ lost_at (process_of tracee tables.now.rows.processes) }
{
    match tables.process(tracee) {
        Some(row) if matches!(row.state, State::Trace { .. }) => SigSet::of(Signal::TRAP),
        _ => SigSet::empty(),
    }
}

/// Detaches a live tracee of a process that ends.
fn detach_tracee(tables: &mut Tables, tracee: Pid)
    requires sound { IsSound tables.old.rows }
    requires live { is_live_at tracee tables.old.rows ≡ true }
    ensures rows { tables.new.rows ≡ detached (is_numbered tracee) lost_signals tables.old.rows }
    ensures sound { IsSound tables.new.rows }
{
    let lost = lost_signals(tables, tracee);
    detach_row(tables, tracee, lost);
}

/// Detaches the live tracees of a process that ends.
#[tactic(auto, using(crate::proofs::LeftAlone::leaving))]
fn detach_tracees(tables: &mut Tables, pid: Pid)
    requires sound { IsSound tables.old.rows }
    requires live { is_live_at pid tables.old.rows ≡ true }
    ensures rows { tables.new.rows ≡ left_alone spares pid tables.old.rows }
    ensures sound { IsSound tables.new.rows }
    ensures live { is_live_at pid tables.new.rows ≡ true }
    ensures leaf { traces_live pid tables.new.rows ≡ false }
{
    while let Some(tracee) = live_tracee(tables, pid, 0) {
        detach_tracee(tables, tracee);
    }
}

/// Ends a process with the word of a wait status, as _exit(2) and a signal's default action do. If the settings
/// kill on a debugger's end, SIGKILL ends its live tracees, their live tracees and so on. If not, its live
/// tracees are detached. Allocates nothing.
pub fn end(tables: &mut Tables, settings: Settings, pid: Pid, status: u32)
    requires sound { IsSound tables.old.rows }
    requires live { is_live_at pid tables.old.rows ≡ true }
    requires word { is_end status ≡ true }
    ensures rows { tables.new.rows ≡ end settings pid status tables.old.rows }
    ensures sound { IsSound tables.new.rows }
{
    if settings.kill_on_debugger_exit {
        end_with_tracees(tables, pid, status);
    } else {
        detach_tracees(tables, pid);
        end_leaf(tables, pid, status);
    }
}
