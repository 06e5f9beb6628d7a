//! Posting any signal to a live process or to an LWP of it, as kill(2) and thr_kill(2) do.

ghost use Rattle.std.specs.Prelude.{◌≡◌, None, Some, true};
ghost use Rattle.proc_table.specs.Processes.{process_of};
ghost use Rattle.trace_rows.specs.Facts.{IsSound};
ghost use Rattle.trace_rows.specs.Sound.{is_live_at};
ghost use Rattle.trace_rows.specs.Stop.{post};

use crate::ends::end;
use pid_blocks::{Pid, Tid};
use proc_table::{ProcData, Tables};
use signals::Signal;
use trace_rows::{Settings, post_other};

/// Posts a signal to a live process, or to an LWP of it; SIGKILL ends the process.
#[inline(always)]
#[tactic(auto, using(trace_rows::proofs::Found::listed))]
fn post_to(
    tables: &mut Tables,
    settings: Settings,
    process: &ProcData,
    signal: Signal,
    to: &Option<Tid>,
)
    requires sound { IsSound tables.old.rows }
    requires at { process_of process.now.pid tables.old.rows.processes ≡ Some process.now }
    requires live { is_live_at process.now.pid tables.old.rows ≡ true }
    ensures rows { tables.new.rows ≡ post settings signal to.now process.now.pid tables.old.rows }
    ensures sound { IsSound tables.new.rows }
{
    if signal == Signal::KILL {
        end(tables, settings, process.pid, signal.number());
    } else {
        post_other(tables, process, signal, to);
    }
}

/// Posts a signal to a live process, as `post` does. The caller has the process's row. Allocates nothing.
#[inline(always)]
pub fn post_process(tables: &mut Tables, settings: Settings, process: &ProcData, signal: Signal)
    requires sound { IsSound tables.old.rows }
    requires at { process_of process.now.pid tables.old.rows.processes ≡ Some process.now }
    requires live { is_live_at process.now.pid tables.old.rows ≡ true }
    ensures rows { tables.new.rows ≡ post settings signal None process.now.pid tables.old.rows }
    ensures sound { IsSound tables.new.rows }
{
    post_to(tables, settings, process, signal, &None);
}

/// Posts a signal to a live process; SIGKILL ends it. Allocates nothing.
pub fn post(tables: &mut Tables, settings: Settings, pid: Pid, signal: Signal)
    requires sound { IsSound tables.old.rows }
    requires live { is_live_at pid tables.old.rows ≡ true }
    ensures rows { tables.new.rows ≡ post settings signal None pid tables.old.rows }
    ensures sound { IsSound tables.new.rows }
{
    if let Some(process) = tables.process(pid) {
        post_to(tables, settings, &process, signal, &None);
    }
}

/// Posts a signal to an LWP of a live process; SIGKILL ends the process. Allocates nothing.
pub fn post_lwp(tables: &mut Tables, settings: Settings, pid: Pid, tid: Tid, signal: Signal)
    requires sound { IsSound tables.old.rows }
    requires live { is_live_at pid tables.old.rows ≡ true }
    ensures rows { tables.new.rows ≡ post settings signal (Some tid) pid tables.old.rows }
    ensures sound { IsSound tables.new.rows }
{
    if let Some(process) = tables.process(pid) {
        post_to(tables, settings, &process, signal, &Some(tid));
    }
}
