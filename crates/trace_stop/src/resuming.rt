//! Resuming and detaching processes with a signal, which may end them.

ghost use Rattle.std.specs.Prelude.{◌≡◌, Some, IsSomeAnd, is_some, true};
ghost use Rattle.signals.specs.Table.{ends};
ghost use Rattle.proc_table.specs.Processes.{process_of, reporting};
ghost use Rattle.trace_rows.specs.Detach.{signal_alone};
ghost use Rattle.trace_rows.specs.Facts.{IsSound};
ghost use Rattle.trace_rows.specs.Stop.{resume, detach};

use crate::ends::end;
use pid_blocks::Pid;
use proc_table::{ProcData, Tables};
use signals::{Pass, SigSet};
use trace_rows::{Resumption, Settings, detach_row, resume_row};

/// Tests whether a process ends when it is resumed with the signal.
fn ends(process: &ProcData, pass: Pass) -> bool
    ensures { result ≡ ends process.now.dispositions pass }
{
    match pass.signal() {
        Some(signal) => process.dispositions.ends(signal),
        None => false,
    }
}

/// Resumes a process from a trace stop, as `resume` does, and sets its event mask and which of its LWPs step. The caller
/// has the process's row. Allocates nothing.
#[tactic(auto, using(crate::proofs::Resumed::stopped))]
pub fn resume_process(tables: &mut Tables, settings: Settings, process: &ProcData, how: &Resumption)
    requires sound { IsSound tables.old.rows }
    requires at { process_of process.now.pid tables.old.rows.processes ≡ Some process.now }
    requires stopped { is_some (reporting process.now) ≡ true }
    ensures rows { tables.new.rows ≡ resume settings how.now process.now.pid tables.old.rows }
    ensures sound { IsSound tables.new.rows }
{
    resume_row(tables, process, how);
    if ends(process, how.pass) {
        end(tables, settings, process.pid, how.pass.number());
    }
}

/// Resumes a process from a trace stop with a signal or with none, as PT_CONTINUE of ptrace(2) does: the signal ends
/// the process if its default action does. Which LWPs step is unchanged. Allocates nothing.
#[tactic(auto, using(crate::proofs::Resumed::stopped_row))]
pub fn resume(tables: &mut Tables, settings: Settings, pid: Pid, pass: Pass)
    requires sound { IsSound tables.old.rows }
    requires stopped { IsSomeAnd (process_of pid tables.old.rows.processes) (λ p. is_some (reporting p) ≡ true) }
    ensures rows { tables.new.rows ≡ resume settings (signal_alone pass) pid tables.old.rows }
    ensures sound { IsSound tables.new.rows }
{
    if let Some(process) = tables.process(pid) {
        resume_process(tables, settings, &process, &Resumption::with_signal(pass));
    }
}

/// Detaches a process from its tracer, as `detach` does. The caller has the process's row. Allocates nothing.
#[tactic(auto, using(crate::proofs::Resumed::stopped))]
pub fn detach_process(tables: &mut Tables, settings: Settings, process: &ProcData, pass: Pass)
    requires sound { IsSound tables.old.rows }
    requires at { process_of process.now.pid tables.old.rows.processes ≡ Some process.now }
    requires stopped { is_some (reporting process.now) ≡ true }
    ensures rows { tables.new.rows ≡ detach settings process.now.pid pass tables.old.rows }
    ensures sound { IsSound tables.new.rows }
{
    if ends(process, pass) {
        resume_process(tables, settings, process, &Resumption::with_signal(pass));
    } else {
        detach_row(tables, process.pid, SigSet::empty());
    }
}

/// Detaches a process in a trace stop from its tracer, with a signal or with none, as PT_DETACH of ptrace(2) does. The
/// signal ends the process if its default action does. Allocates nothing.
#[tactic(auto, using(crate::proofs::Resumed::stopped_row))]
pub fn detach(tables: &mut Tables, settings: Settings, pid: Pid, pass: Pass)
    requires sound { IsSound tables.old.rows }
    requires stopped { IsSomeAnd (process_of pid tables.old.rows.processes) (λ p. is_some (reporting p) ≡ true) }
    ensures rows { tables.new.rows ≡ detach settings pid pass tables.old.rows }
    ensures sound { IsSound tables.new.rows }
{
    if let Some(process) = tables.process(pid) {
        detach_process(tables, settings, &process, pass);
    }
}
