//! Dispositions of signals.

ghost use Rattle.std.specs.Prelude.{◌≡◌, Some, None, if◌then◌else◌};
ghost use Rattle.signals.specs.Table.{set_disposition};
ghost use Rattle.proc_table.specs.Processes.{process_of};
ghost use Rattle.requests.specs.Outcome.{Gives};
ghost use Rattle.requests.specs.Sigaction.{is_refused, sigaction};

use crate::Reply;
use pid_blocks::Errno;
use proc_table::{ProcData, Tables};
use signals::{Disposition, Dispositions, Signal};
use trace_rows::settle;

/// Returns the dispositions with a new one for the signal; `None` if sigaction(2) refuses that.
#[tactic(auto, using(crate::proofs::DisposedRows::refused_is))]
fn with_disposition(
    dispositions: &Dispositions,
    sig: u32,
    disposition: Disposition,
) -> Option<Dispositions>
    ensures { result ≡ (if is_refused sig disposition then None else Some (set_disposition dispositions.now sig disposition)) }
{
    let Ok(signal) = Signal::new(sig) else {
        return None;
    };
    let mut changed = *dispositions;
    match changed.set(signal, disposition) {
        Ok(()) => Some(changed),
        Err(_) => None,
    }
}

/// Returns the row of the process with other dispositions.
fn disposed(p: &ProcData, dispositions: Dispositions) -> ProcData
    ensures { result ≡ record p.now { dispositions = dispositions } }
{
    ProcData { dispositions, ..*p }
}

/// Sets the disposition of a signal for the caller, a process that runs, as sigaction(2) does. Refused with EINVAL
/// if the number is not a signal's, and for SIGKILL and SIGSTOP unless the disposition is the default one.
#[tactic(auto, using(crate::proofs::DisposedRows::row_there))]
pub fn sigaction(
    tables: &mut Tables,
    caller: &ProcData,
    sig: u32,
    disposition: Disposition,
) -> Reply
    requires caller { process_of caller.now.pid tables.old.rows.processes ≡ Some caller.now }
    ensures { Gives (sigaction caller.now sig disposition tables.old.rows) tables.new.rows result }
{
    let Some(dispositions) = with_disposition(&caller.dispositions, sig, disposition) else {
        return Reply::Errno(Errno::EINVAL);
    };
    tables.assert_invariant();
    tables.set_process(disposed(caller, dispositions));
    settle(tables, caller.pid);
    Reply::Done
}
