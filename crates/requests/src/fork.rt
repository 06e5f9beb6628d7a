//! fork and vfork.

ghost use Rattle.std.specs.Prelude.{◌≡◌, ◌<◌, true, false};
ghost use Rattle.pid_blocks.specs.Blocks.{pid_block, tid_block, InBlock};
ghost use Rattle.proc_table.specs.Fresh.{is_process, is_lwp};
ghost use Rattle.requests.specs.Actors.{IsActing, HasLwp, mode_after};
ghost use Rattle.requests.specs.Leave.{room_for_process, forked, child_stop, with_child, forks};
ghost use Rattle.requests.specs.Memory.{Attempts};

use crate::Reply;
use crate::spawn::{new_reply, room_for_lwp, room_for_pid};
use crate::stopping::{exit_stop, finish, is_asked};
use event_masks::{Call, EventMask, StopFlags, call_code, default_mask};
use lwp_table::{Due, LwpData, Mode};
use pid_blocks::{Errno, Pid, Tid};
use proc_table::{ProcData, State, Tables};
use signals::{SigSet, Signal};
use trace_rows::{StopInfo, stop};

/// Returns the row of a fork's child. If `followed`, the parent's tracer traces it.
fn forked(followed: bool, p: &ProcData, pid: Pid) -> ProcData
    ensures { result ≡ forked followed p.now pid }
{
    ProcData {
        pid,
        uid: p.uid,
        parent: p.pid.get(),
        tracer: if followed { p.tracer } else { None },
        state: State::Run,
        continued: false,
        mask: if followed {
            default_mask()
        } else {
            EventMask::none()
        },
        dispositions: p.dispositions,
        pending: SigSet::empty(),
    }
}

/// Returns the stop of a followed child before its first turn.
fn child_stop(call: Call) -> StopInfo
    ensures { result ≡ child_stop call }
{
    StopInfo {
        sig: Signal::STOP,
        flags: StopFlags::PL_FLAG_SCX.with(StopFlags::PL_FLAG_CHILD),
        child: 0,
        code: call_code(call),
    }
}

/// Returns the mode of the LWP after its fork: after a vfork it waits for the child.
fn mode_after(call: Call, child: Pid) -> Mode
    ensures { result ≡ mode_after call child }
{
    match call {
        Call::Vfork => Mode::VforkWait(child),
        _ => Mode::User,
    }
}

/// Adds the child of a fork. The tables have room for it.
fn add_child(tables: &mut Tables, call: Call, p: &ProcData, l: &LwpData, pid: Pid, tid: Tid)
    requires acting { IsActing p.now l.now tables.old.rows }
    requires processes { 0 < tables.old.spare_processes }
    requires lwps { 0 < tables.old.spare_lwps }
    requires home { InBlock (pid_block p.now.uid) pid }
    requires own_home { InBlock (tid_block p.now.uid) tid }
    requires fresh { is_process tables.old.rows pid ≡ false }
    requires own_fresh { is_lwp tables.old.rows tid ≡ false }
    ensures rows { tables.new.rows ≡ with_child call p.now l.now (record { pid = pid; tid = tid }) tables.old.rows }
    ensures there { HasLwp p.now.pid l.now.tid tables.new.rows }
{
    tables.assert_invariant();
    let followed = is_asked(p, EventMask::PTRACE_FORK);
    tables.add_process(forked(followed, p, pid));
    tables.add_lwp(p.uid, LwpData::born(tid, pid, l.blocked, Due::Nothing));
    if followed {
        stop(tables, pid, tid, &child_stop(call));
    }
}

/// Makes a child of the process, with one LWP. Refused with EAGAIN if the user has 250 processes or 1000 LWPs, and with
/// ENOMEM if memory runs out. A refusal changes nothing.
pub fn fork(tables: &mut Tables, call: Call, p: &ProcData, l: &LwpData) -> Reply
    requires { IsActing p.now l.now tables.old.rows }
    ensures { let room = room_for_process p.now.uid tables.old.rows in
        Attempts true (forks call (mode_after call) p.now l.now tables.old.rows room) tables.old.rows
        tables.new.rows result }
{
    let Some(pid) = room_for_pid(tables, p.uid) else {
        return Reply::Errno(Errno::EAGAIN);
    };
    let Some(tid) = room_for_lwp(tables, p.uid) else {
        return Reply::Errno(Errno::EAGAIN);
    };
    let Ok(()) = tables.reserve_process(1) else {
        return Reply::Errno(Errno::ENOMEM);
    };
    let Ok(()) = tables.reserve_lwp(1) else {
        return Reply::Errno(Errno::ENOMEM);
    };
    add_child(tables, call, p, l, pid, tid);
    finish(
        tables,
        mode_after(call, pid),
        &exit_stop(p, call, pid.get()),
        new_reply(pid, tid),
        p,
        l,
    )
}
