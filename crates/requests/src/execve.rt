//! execve.

ghost use Rattle.std.specs.Prelude.{◌≡◌, ◌==◌, true, find};
ghost use Rattle.event_masks.specs.declared.Call.TheVariants as call;
ghost use Rattle.signals.specs.Table.{after_exec};
ghost use Rattle.proc_table.specs.Kept.{TableInvariant, IsRow};
ghost use Rattle.proc_table.specs.Processes.{process_of};
ghost use Rattle.proc_table.specs.Rows.{change_process};
ghost use Rattle.trace_rows.specs.Facts.{IsSound};
ghost use Rattle.step_types.specs.declared.Reply.TheVariants as reply;
ghost use Rattle.requests.specs.Actors.{IsActing, HasLwp};
ghost use Rattle.requests.specs.Programs.{is_other, only_lwp, parent_freed};
ghost use Rattle.requests.specs.Outcome.{Gives, stops_or};
ghost use Rattle.requests.specs.Leave.{exit_stop, exec_rows};

use crate::Reply;
use crate::stopping::{exit_stop, set_mode, stop_or};
use event_masks::Call;
use lwp_table::{LwpData, Mode};
use pid_blocks::{Pid, Tid};
use proc_table::{ProcData, Tables};
use trace_rows::settle;
use trace_stop::release;

/// Returns the oldest LWP of the process whose number differs from `tid`.
#[tactic(auto, using(std::proofs::lemmas::Bool::Decides::nat_tests, crate::proofs::RunProgram::other_none, crate::proofs::RunProgram::other_first, crate::proofs::RunProgram::other_next))]
fn other_lwp(tables: &Tables, pid: Pid, tid: Tid) -> Option<LwpData>
    requires { HasLwp pid tid tables.now.rows }
    ensures other { result ≡ find (is_other pid tid) tables.now.rows.lwps }
    ensures kept { TableInvariant tables.now.rows }
{
    let Some(first) = tables.first_lwp(pid) else {
        return None;
    };
    if first.tid == tid {
        tables.next_lwp(pid, tid)
    } else {
        Some(first)
    }
}

/// Removes the other LWPs of a process.
#[tactic(auto, using(crate::proofs::RunProgram::other_there, crate::proofs::RunProgram::other_left, crate::proofs::RunProgram::other_dropped, crate::proofs::RunProgram::others_none))]
fn keep_lwp(tables: &mut Tables, pid: Pid, tid: Tid)
    requires { HasLwp pid tid tables.old.rows }
    ensures rows { tables.new.rows ≡ only_lwp pid tid tables.old.rows }
    ensures there { HasLwp pid tid tables.new.rows }
{
    while let Some(other) = other_lwp(tables, pid, tid) {
        tables.remove_lwp(other.tid);
    }
}

/// Ends the vfork wait for the process. Only LWPs of its parent can be in one.
fn release_parent(tables: &mut Tables, p: &ProcData)
    ensures { tables.new.rows ≡ parent_freed (process_of p.now.parent tables.old.rows.processes) p.now.pid tables.old.rows }
{
    if let Some(parent) = tables.process_by_number(p.parent) {
        release(tables, &parent, p.pid);
    }
}

/// Makes the process catch no signal any more.
#[tactic(auto, using(proc_table::proofs::Seen::has_row))]
fn drop_handlers(tables: &mut Tables, pid: Pid)
    requires { IsRow tables.old.rows pid }
    ensures { tables.new.rows
        ≡ change_process pid (λ q. record q { dispositions = after_exec q.dispositions }) tables.old.rows }
{
    let row = tables.process(pid).unwrap();
    tables.set_process(ProcData {
        dispositions: row.dispositions.after_exec(),
        ..row
    });
}

/// Lets the process run another program with this LWP only.
fn run_program(tables: &mut Tables, p: &ProcData, l: &LwpData)
    requires sound { IsSound tables.old.rows }
    requires acting { IsActing p.now l.now tables.old.rows }
    ensures rows { tables.new.rows ≡ exec_rows p.now l.now tables.old.rows }
    ensures there { HasLwp p.now.pid l.now.tid tables.new.rows }
{
    set_mode(tables, l.tid, Mode::User);
    keep_lwp(tables, p.pid, l.tid);
    release_parent(tables, p);
    drop_handlers(tables, p.pid);
    settle(tables, p.pid);
}

/// execve: the process keeps only this LWP and catches no signal. An LWP that waits for it by vfork is released.
pub fn exec(tables: &mut Tables, p: &ProcData, l: &LwpData) -> Reply
    requires sound { IsSound tables.old.rows }
    requires acting { IsActing p.now l.now tables.old.rows }
    ensures { let replaced = exec_rows p.now l.now tables.old.rows in
        Gives (stops_or (exit_stop p.now call.Exec 0) reply.Done p.now l.now replaced) tables.new.rows result }
{
    run_program(tables, p, l);
    stop_or(tables, &exit_stop(p, Call::Exec, 0), Reply::Done, p, l)
}
