//! New processes.

ghost use Rattle.std.specs.Prelude.{◌≡◌, ◌≢◌, ◌<◌, Some, None, IfSome, true, false, leb, if◌then◌else◌};
ghost use Rattle.pid_blocks.specs.Blocks.{pid_block, tid_block, InBlock};
ghost use Rattle.lwp_table.specs.declared.Due.TheVariants as due;
ghost use Rattle.proc_table.specs.Processes.{spawned};
ghost use Rattle.proc_table.specs.Fresh.{fresh_pid, is_process, is_lwp, process_count};
ghost use Rattle.step_types.specs.declared.Reply.TheVariants as reply;
ghost use Rattle.trace_rows.specs.Limits.{max_processes};
ghost use Rattle.requests.specs.Leave.{room_for_lwp};
ghost use Rattle.requests.specs.Spawn.{spawn};
ghost use Rattle.requests.specs.Memory.{Attempts};

use crate::{MAX_LWPS, MAX_PROCESSES, Reply};
use event_masks::EventMask;
use lwp_table::{Due, LwpData};
use pid_blocks::{Errno, Pid, Tid, Uid};
use proc_table::{ProcData, State, Tables};
use signals::{Dispositions, SigSet};

/// Returns the number of the user's next LWP, or `None` if the user has 1000.
pub fn room_for_lwp(tables: &Tables, user: Uid) -> Option<Tid>
    ensures room { result ≡ room_for_lwp user tables.now.rows }
    ensures home { IfSome result (λ n. InBlock (tid_block user) n) }
    ensures fresh { IfSome result (λ n. is_lwp tables.now.rows n ≡ false) }
{
    if tables.lwp_count_of(user) >= MAX_LWPS {
        return None;
    }
    tables.fresh_tid(user)
}

/// Returns the number of the user's next process, or `None` if the user has 250.
pub fn room_for_pid(tables: &Tables, user: Uid) -> Option<Pid>
    ensures room { result ≡ (if leb max_processes (process_count user tables.now.rows) then None else fresh_pid user tables.now.rows) }
    ensures home { IfSome result (λ n. InBlock (pid_block user) n) }
    ensures fresh { IfSome result (λ n. is_process tables.now.rows n ≡ false) }
{
    if tables.process_count(user) >= MAX_PROCESSES {
        return None;
    }
    tables.fresh_pid(user)
}

/// Returns the row of a new process.
fn spawned(pid: Pid, uid: Uid) -> ProcData
    ensures { result ≡ spawned pid uid }
{
    ProcData {
        pid,
        uid,
        parent: 1,
        tracer: None,
        state: State::Run,
        continued: false,
        mask: EventMask(0),
        dispositions: Dispositions::standard(),
        pending: SigSet::empty(),
    }
}

pub fn new_reply(pid: Pid, tid: Tid) -> Reply
    ensures { result ≡ reply.New pid tid }
{
    Reply::New { pid, tid }
}

/// Makes a process of the user with one LWP. Refused with EAGAIN if the user has 250 processes or 1000 LWPs, and with
/// ENOMEM if memory runs out. A refusal changes nothing.
pub fn spawn(tables: &mut Tables, user: Uid) -> Reply
    ensures { Attempts true (spawn user tables.old.rows) tables.old.rows tables.new.rows result }
{
    let Some(pid) = room_for_pid(tables, user) else {
        return Reply::Errno(Errno::EAGAIN);
    };
    let Some(tid) = room_for_lwp(tables, user) else {
        return Reply::Errno(Errno::EAGAIN);
    };
    let Ok(()) = tables.reserve_process(1) else {
        return Reply::Errno(Errno::ENOMEM);
    };
    let Ok(()) = tables.reserve_lwp(1) else {
        return Reply::Errno(Errno::ENOMEM);
    };
    tables.add_process(spawned(pid, user));
    tables.add_lwp(user, LwpData::born(tid, pid, SigSet::empty(), Due::Nothing));
    new_reply(pid, tid)
}
