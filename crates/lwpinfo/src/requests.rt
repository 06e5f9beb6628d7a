ghost use Rattle.std.specs.Prelude.{◌≡◌, IfOk, option_map};
ghost use Rattle.lwp_table.specs.Lwps.{lwp_of, lwps_of};
ghost use Rattle.proc_table.specs.Fresh.{lwp_count};
ghost use Rattle.proc_table.specs.Processes.{reporting, is_this};
ghost use Rattle.lwpinfo.specs.Info.{info_of, lwp_info, lwp_list};

use crate::{LwpInfo, NumList, lwp_info};
use lwp_table::LwpData;
use pid_blocks::{Pid, Tid};
use proc_table::{ProcData, State, Tables};
use std::alloc::{AllocError, Global};

/// Returns what PT_LWPINFO of ptrace(2) shows of an LWP of the process, or `None` if no process has the number or the
/// process has no such LWP.
#[tactic(auto, using(crate::proofs::Owned::of_info))]
pub fn info(tables: &Tables, pid: Pid, tid: Tid) -> Option<LwpInfo>
    ensures { result ≡ info_of pid tid tables.now.rows }
{
    match tables.process(pid) {
        Some(process) => reported_info(reports(&process, tid), lwp_of_process(tables, pid, tid)),
        None => None,
    }
}

/// Returns the process's LWP with the number, if there is one.
#[tactic(auto, using(crate::proofs::Owned::of_process))]
fn lwp_of_process(tables: &Tables, pid: Pid, tid: Tid) -> Option<LwpData>
    ensures { result ≡ lwp_of tid (lwps_of pid tables.now.rows.lwps) }
{
    tables.assert_invariant();
    let lwp = tables.lwp(tid)?;
    if lwp.pid == pid { Some(lwp) } else { None }
}

/// Tests whether the LWP reports the process's stop.
fn reports(process: &ProcData, tid: Tid) -> bool
    ensures { result ≡ is_this tid (reporting process.now) }
{
    match process.state {
        State::Trace { tid: reporting, .. } => reporting == tid,
        State::Run | State::Job { .. } | State::Zombie { .. } => false,
    }
}

/// Returns what is shown of an LWP, if there is one.
fn reported_info(reports: bool, lwp: Option<LwpData>) -> Option<LwpInfo>
    ensures { result ≡ option_map (lwp_info reports) lwp }
{
    match &lwp {
        Some(row) => Some(lwp_info(reports, row)),
        None => None,
    }
}

/// Returns the number of the process's LWPs, as PT_GETNUMLWPS of ptrace(2) does.
pub fn lwp_count(tables: &Tables, pid: Pid) -> usize
    ensures { result ≡ lwp_count pid tables.now.rows }
{
    tables.lwp_count(pid)
}

/// Returns the numbers of the process's first `count` LWPs by birth, as PT_GETLWPLIST of ptrace(2) does. Fails when
/// out of memory.
pub fn lwp_list(alloc: Global, tables: &Tables, pid: Pid, count: u32) -> Result<NumList, AllocError>
    ensures { IfOk result (λ list. list ≡ lwp_list pid count tables.now.rows) }
{
    let mut numbers = Vec::with_capacity(alloc, tables.lwp_count(pid).min(count as usize))?;
    for lwp in tables.lwps_of(pid) {
        if numbers.len() == count as usize {
            break;
        }
        numbers.push(lwp.tid.get())?;
    }
    Ok(NumList::of(numbers))
}
