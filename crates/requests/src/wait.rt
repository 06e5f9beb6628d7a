//! Waiting for children.

ghost use Rattle.std.specs.Prelude.{◌≡◌};
ghost use Rattle.trace_rows.specs.Facts.{IsSound};
ghost use Rattle.wait4.specs.declared.Collected.{Collected};
ghost use Rattle.requests.specs.Outcome.{Gives};
ghost use Rattle.requests.specs.Wait.{wait, collect_reply};

use crate::Reply;
use pid_blocks::Errno;
use proc_table::{ProcData, Tables};
use wait4::{Collected, Options, collect};

/// Returns the reply for the result of a wait.
fn collect_reply(collected: Collected) -> Reply
    ensures { result ≡ collect_reply collected }
{
    match collected {
        Collected::NoChild => Reply::Errno(Errno::ECHILD),
        Collected::Nothing => Reply::Nothing,
        Collected::Got(pid, status) => Reply::Status { pid, status },
    }
}

/// Waits for a child of the caller, a process that runs, as wait4(2) with WNOHANG does. Refused with EINVAL if
/// `which` is 0 or below -1, and with ECHILD if no child fits.
#[inline(always)]
pub fn wait(tables: &mut Tables, caller: &ProcData, which: i64, options: Options) -> Reply
    requires sound { IsSound tables.old.rows }
    ensures { Gives (wait caller.now which options tables.old.rows) tables.new.rows result }
{
    if which < -1 || which == 0 {
        return Reply::Errno(Errno::EINVAL);
    }
    collect_reply(collect(tables, caller.pid, which, options))
}
