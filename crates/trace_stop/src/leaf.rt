//! The end of a process without live tracees.

ghost use Rattle.std.specs.Prelude.{◌≡◌, ℕ, ◌<◌, ◌==◌, ◌||◌, true, false, None, Some, count_by, is_some, option_map, if◌then◌else◌};
ghost use Rattle.std.specs.List.{list_any};
ghost use Rattle.std.specs.Option.{option_and_then};
ghost use Rattle.lwp_table.specs.Lwps.{first_lwp};
ghost use Rattle.proc_table.specs.Edits.{map_lwps};
ghost use Rattle.proc_table.specs.Kept.{TableInvariant};
ghost use Rattle.proc_table.specs.Processes.{process_of, is_live, traces};
ghost use Rattle.proc_table.specs.Walks.{next_tracee, next_child};
ghost use Rattle.trace_rows.specs.End.{released, collector, uncollected};
ghost use Rattle.trace_rows.specs.Facts.{IsSound};
ghost use Rattle.trace_stop.specs.Laws.{traces_live, end_alone};
ghost use Rattle.trace_rows.specs.Sound.{is_live_at};
ghost use Rattle.trace_stop.specs.Leaving.{IsLeaving, without_lwps, lwps_ended};

use event_masks::EventMask;
use lwp_table::{Due, LwpData, Mode};
use pid_blocks::Pid;
use proc_table::{ProcData, State, Tables};
use signals::SigSet;
use trace_rows::post_sigchld;

/// Removes the LWPs of a process.
#[tactic(auto, using(crate::proofs::LwpEdits::removing))]
fn remove_lwps(tables: &mut Tables, pid: Pid)
    ensures { tables.new.rows ≡ without_lwps pid tables.old.rows }
{
    while let Some(lwp) = tables.first_lwp(pid) {
        tables.remove_lwp(lwp.tid);
    }
}

/// Returns an LWP of this process. If it waited for `child`, its wait is over.
#[tactic(auto, using(crate::proofs::LwpEdits::waits_for_one))]
fn released(lwp: &LwpData, process: &ProcData, child: Pid) -> LwpData
    ensures { result ≡ released (λ n. n == child) process.now lwp.now }
{
    if !lwp.mode.waits_for(child) {
        return LwpData { ..*lwp };
    }
    let due = if process.tracer.is_some() && process.mask.asks(EventMask::PTRACE_VFORK) {
        Due::VforkDone
    } else {
        lwp.due
    };
    LwpData {
        mode: Mode::User,
        due,
        ..*lwp
    }
}

/// Ends the waits of a process's LWPs for its child, as when the child ends or makes an exec. Each of these LWPs is
/// in user mode again, and stops at its next turn if its tracer asks for it. Looks only at the LWP that may wait for
/// the child. Allocates nothing.
pub fn release(tables: &mut Tables, process: &ProcData, child: Pid)
    ensures { tables.new.rows ≡ map_lwps process.now.pid (released (λ n. n == child) process.now) tables.old.rows }
{
    tables.edit_waiting_lwps(process.pid, child, |lwp| released(lwp, process, child));
}

/// Returns the parent of a process, if the parent is a process. No process has the number 1.
fn parent_of(tables: &Tables, pid: Pid) -> Option<ProcData>
    ensures { result ≡ option_and_then (λ p. process_of p.parent tables.now.rows.processes) (process_of pid tables.now.rows.processes) }
{
    match tables.process(pid) {
        Some(process) if process.parent != 1 => tables.process_by_number(process.parent),
        _ => None,
    }
}

/// Removes the LWPs of a process, and ends the waits of its parent's LWPs for it.
#[tactic(auto, using(crate::proofs::LwpsEnd::lwps_ending))]
fn end_lwps(tables: &mut Tables, pid: Pid)
    requires sound { IsSound tables.old.rows }
    requires live { is_live_at pid tables.old.rows ≡ true }
    ensures { tables.new.rows ≡ lwps_ended pid tables.old.rows }
{
    remove_lwps(tables, pid);
    if let Some(parent) = parent_of(tables, pid) {
        release(tables, &parent, pid);
    }
}

/// Returns the process that collects a zombie: its tracer, or else its parent unless that is 1.
fn collector(zombie: &ProcData) -> Option<u32>
    ensures { result ≡ option_map collector (uncollected zombie.now) }
{
    match zombie.tracer {
        Some(tracer) => Some(tracer.get()),
        None if zombie.parent == 1 => None,
        None => Some(zombie.parent),
    }
}

/// Returns a zombie without its tracer, and without its parent if that is the process that ends.
fn orphaned(zombie: &ProcData, ended: Pid) -> ProcData
    ensures { result ≡ record zombie.now { tracer = None; parent = if zombie.now.parent == ended then 1 else zombie.now.parent } }
{
    let parent = if zombie.parent == ended.get() {
        1
    } else {
        zombie.parent
    };
    ProcData {
        tracer: None,
        parent,
        ..*zombie
    }
}

/// Ends the tracing of a zombie by the process, and notifies the zombie's parent. Removes the zombie if it has no
/// parent left to collect it.
fn drop_tracer(tables: &mut Tables, zombie: &ProcData, pid: Pid)
    requires kept { TableInvariant tables.old.rows }
    requires leaving { IsLeaving pid tables.old.rows }
    requires there { process_of zombie.now.pid tables.old.rows.processes ≡ Some zombie.now }
    requires traced { traces pid zombie.now ≡ true }
    ensures leaving { IsLeaving pid tables.new.rows }
    ensures fewer { count_by (traces pid) tables.new.rows.processes < count_by (traces pid) tables.old.rows.processes }
    ensures same { (status : ℕ) → end_alone pid status tables.new.rows ≡ end_alone pid status tables.old.rows }
{
    let orphan = orphaned(zombie, pid);
    let Some(parent) = collector(&orphan) else {
        tables.remove_process(zombie.pid);
        return;
    };
    tables.set_process(ProcData {
        pid: zombie.pid,
        ..orphan
    });
    post_sigchld(tables, parent);
}

/// Ends the tracing of the process's tracees, which are zombies.
#[tactic(auto, using(crate::proofs::Taken::taking))]
fn orphan_tracees(tables: &mut Tables, pid: Pid)
    requires leaving { IsLeaving pid tables.old.rows }
    ensures leaving { IsLeaving pid tables.new.rows }
    ensures none { list_any (traces pid) tables.new.rows.processes ≡ false }
    ensures same { (status : ℕ) → end_alone pid status tables.new.rows ≡ end_alone pid status tables.old.rows }
{
    while let Some(zombie) = tables.next_tracee(pid, 0) {
        drop_tracer(tables, &zombie, pid);
    }
}

/// Tests whether a process stays when its parent ends: a live process, or a zombie with a tracer.
fn stays(child: &ProcData) -> bool
    ensures { result ≡ (is_live child.now || is_some child.now.tracer) }
{
    child.is_live() || child.tracer.is_some()
}

/// Makes 1 the parent of a child of the process, or removes the child if it is a zombie that no process collects.
fn orphan_child(tables: &mut Tables, child: &ProcData, pid: Pid)
    requires kept { TableInvariant tables.old.rows }
    requires leaving { IsLeaving pid tables.old.rows }
    requires untraced { list_any (traces pid) tables.old.rows.processes ≡ false }
    requires there { process_of child.now.pid tables.old.rows.processes ≡ Some child.now }
    requires child { (child.now.parent == pid) ≡ true }
    ensures leaving { IsLeaving pid tables.new.rows }
    ensures untraced { list_any (traces pid) tables.new.rows.processes ≡ false }
    ensures fewer { count_by (λ r. r.parent == pid) tables.new.rows.processes < count_by (λ r. r.parent == pid) tables.old.rows.processes }
    ensures same { (status : ℕ) → end_alone pid status tables.new.rows ≡ end_alone pid status tables.old.rows }
{
    if stays(child) {
        tables.set_process(ProcData {
            parent: 1,
            ..*child
        });
    } else {
        tables.remove_process(child.pid);
    }
}

/// Makes 1 the parent of each child of the process, or removes the child if it is a zombie that no process collects.
#[tactic(auto, using(crate::proofs::Taken::taking))]
fn orphan_children(tables: &mut Tables, pid: Pid)
    requires leaving { IsLeaving pid tables.old.rows }
    requires untraced { list_any (traces pid) tables.old.rows.processes ≡ false }
    ensures leaving { IsLeaving pid tables.new.rows }
    ensures untraced { list_any (traces pid) tables.new.rows.processes ≡ false }
    ensures none { list_any (λ r. r.parent == pid) tables.new.rows.processes ≡ false }
    ensures same { (status : ℕ) → end_alone pid status tables.new.rows ≡ end_alone pid status tables.old.rows }
{
    while let Some(child) = tables.next_child(pid, 0) {
        orphan_child(tables, &child, pid);
    }
}

/// Makes a zombie of a process that has no LWP and that no process names, and notifies the process that collects
/// it. Removes the row if there is no such process.
#[tactic(auto, using(crate::proofs::Burial::burying))]
fn make_zombie(tables: &mut Tables, pid: Pid, status: u32)
    requires leaving { IsLeaving pid tables.old.rows }
    requires untraced { list_any (traces pid) tables.old.rows.processes ≡ false }
    requires childless { list_any (λ r. r.parent == pid) tables.old.rows.processes ≡ false }
    ensures { tables.new.rows ≡ end_alone pid status tables.old.rows }
{
    let Some(process) = tables.process(pid) else {
        return;
    };
    let Some(told) = collector(&process) else {
        tables.remove_process(pid);
        return;
    };
    tables.set_process(ProcData {
        state: State::Zombie { status },
        continued: false,
        mask: EventMask::none(),
        pending: SigSet::empty(),
        ..process
    });
    post_sigchld(tables, told);
}

/// Ends a process without live tracees. Allocates nothing.
#[tactic(auto, using(crate::proofs::LwpsEnd::lwps_ending))]
pub fn end_leaf(tables: &mut Tables, pid: Pid, status: u32)
    requires sound { IsSound tables.old.rows }
    requires live { is_live_at pid tables.old.rows ≡ true }
    requires leaf { traces_live pid tables.old.rows ≡ false }
    ensures { tables.new.rows ≡ end_alone pid status tables.old.rows }
{
    end_lwps(tables, pid);
    orphan_tracees(tables, pid);
    orphan_children(tables, pid);
    make_zombie(tables, pid, status);
}
