//! What a user sees, as rows of numbers.
ghost use Rattle.std.specs.Prelude.{◌≡◌, ◌≢◌, map};
ghost use Rattle.requests.specs.View.{view};
ghost use Rattle.tracehost_c.specs.FlatRows.{flat_process, flat_lwp};
ghost use Rattle.tracehost_c.specs.Calls.{Shows};

use crate::calls::{ANSWERED, NO_MEMORY};
use crate::rows::{FlatLwp, FlatProcess};
use lwp_table::LwpData;
use open_sessions::Session;
use pid_blocks::Uid;
use proc_table::ProcData;
use std::alloc::Global;

/// Writes the rows of processes.
fn put_processes(rows: &[ProcData], out: &mut [FlatProcess], whole: &mut usize)
    ensures { Shows (map flat_process rows.now) out.old out.new whole.new }
{
    let n = rows.len().min(out.len());
    for place in 0..n {
        out[place] = FlatProcess::of(&rows[place]);
    }
    *whole = rows.len();
}

/// Writes the rows of LWPs.
fn put_lwps(rows: &[LwpData], out: &mut [FlatLwp], whole: &mut usize)
    ensures { Shows (map flat_lwp rows.now) out.old out.new whole.new }
{
    let n = rows.len().min(out.len());
    for place in 0..n {
        out[place] = FlatLwp::of(&rows[place]);
    }
    *whole = rows.len();
}

/// Writes what the user sees of a session's host.
pub(crate) fn put_view(
    alloc: Global,
    session: &Session,
    user: Uid,
    processes: &mut [FlatProcess],
    lwps: &mut [FlatLwp],
    process_count: &mut usize,
    lwp_count: &mut usize,
) -> u32
    ensures processes { result ≡ 0 → Shows (map flat_process (view user session.now.host).processes) processes.old processes.new process_count.new }
    ensures lwps { result ≡ 0 → Shows (map flat_lwp (view user session.now.host).lwps) lwps.old lwps.new lwp_count.new }
    ensures processes_kept { result ≢ 0 → (result ≡ 2) × (processes.new ≡ processes.old) × (process_count.new ≡ process_count.old) }
    ensures lwps_kept { result ≢ 0 → (lwps.new ≡ lwps.old) × (lwp_count.new ≡ lwp_count.old) }
{
    match session.view(alloc, user) {
        Ok(seen) => {
            put_processes(seen.processes.as_slice(), processes, process_count);
            put_lwps(seen.lwps.as_slice(), lwps, lwp_count);
            ANSWERED
        }
        Err(_) => NO_MEMORY,
    }
}
