//! The work of a system call, done when its LWP leaves the call.

ghost use Rattle.std.specs.Prelude.{◌≡◌, ◌*◌, true};
ghost use Rattle.proc_table.specs.Processes.{is_run};
ghost use Rattle.trace_rows.specs.Facts.{IsSound};
ghost use Rattle.trace_rows.specs.Sound.{is_live_at};
ghost use Rattle.requests.specs.Actors.{IsActing};
ghost use Rattle.requests.specs.Outcome.{Gives, ends_with};
ghost use Rattle.requests.specs.Leave.{exits_lwp, due_at_birth, room_for_lwp, makes_lwp, leaves};
ghost use Rattle.requests.specs.Memory.{makes, Attempts};

use crate::Reply;
use crate::execve::exec;
use crate::fork::fork;
use crate::spawn::{new_reply, room_for_lwp};
use crate::stopping::{exit_stop, finish, is_asked, stop_with, trap};
use event_masks::{Call, EventMask, StopFlags};
use lwp_table::{Due, LwpData, Mode};
use pid_blocks::Errno;
use proc_table::{ProcData, Tables};
use trace_rows::Settings;
use trace_stop::end;

/// Exit: ends the process with the status that wait4(2) shows.
fn exit(tables: &mut Tables, settings: Settings, status: u8, p: &ProcData) -> Reply
    requires sound { IsSound tables.old.rows }
    requires live { is_live_at p.now.pid tables.old.rows ≡ true }
    ensures { Gives (ends_with settings (status * 256) p.now tables.old.rows) tables.new.rows result }
{
    let word = status as u32 * 256;
    end(tables, settings, p.pid, word);
    Reply::Ended(word)
}

/// thr_exit: removes the LWP, or stops it a last time for its tracer. The exit of the last LWP ends the process.
fn exit_lwp(tables: &mut Tables, settings: Settings, p: &ProcData, l: &LwpData) -> Reply
    requires sound { IsSound tables.old.rows }
    requires acting { IsActing p.now l.now tables.old.rows }
    requires live { is_live_at p.now.pid tables.old.rows ≡ true }
    ensures { Gives (exits_lwp settings p.now l.now tables.old.rows) tables.new.rows result }
{
    if tables.lwp_count(p.pid) <= 1 {
        exit(tables, settings, 0, p)
    } else if is_asked(p, EventMask::PTRACE_LWP) {
        let shown = trap(StopFlags::PL_FLAG_EXITED, 0, Call::ThrExit);
        stop_with(tables, p, l, &shown)
    } else {
        tables.remove_lwp(l.tid);
        Reply::Done
    }
}

/// Returns the stop that a new LWP makes at its first turn.
fn due_at_birth(p: &ProcData) -> Due
    ensures { result ≡ due_at_birth p.now }
{
    if is_asked(p, EventMask::PTRACE_LWP) {
        Due::Born
    } else if is_asked(p, EventMask::PTRACE_SCX) {
        Due::Begun
    } else {
        Due::Nothing
    }
}

/// thr_new: adds an LWP to the process. Refused with EAGAIN if the user has 1000, and with ENOMEM if memory runs out. A
/// refusal changes nothing.
#[tactic(auto, using(crate::proofs::HasLwpAfterChange::owns_itself))]
fn make_lwp(tables: &mut Tables, p: &ProcData, l: &LwpData) -> Reply
    requires { IsActing p.now l.now tables.old.rows }
    ensures { let room = room_for_lwp p.now.uid tables.old.rows in
        Attempts true (makes_lwp p.now l.now tables.old.rows room) tables.old.rows tables.new.rows result }
{
    let Some(tid) = room_for_lwp(tables, p.uid) else {
        return Reply::Errno(Errno::EAGAIN);
    };
    let Ok(()) = tables.reserve_lwp(1) else {
        return Reply::Errno(Errno::ENOMEM);
    };
    tables.add_lwp(p.uid, LwpData::born(tid, p.pid, l.blocked, due_at_birth(p)));
    finish(
        tables,
        Mode::User,
        &exit_stop(p, Call::ThrNew, 0),
        new_reply(p.pid, tid),
        p,
        l,
    )
}

/// Does the work of a call when its LWP leaves it. Refused with EAGAIN if a limit leaves no room for the process or
/// LWP that the call makes, and with ENOMEM if memory runs out. A refusal changes nothing.
#[tactic(auto, using(crate::proofs::HasLwpAfterChange::runs_live))]
pub fn leave(
    tables: &mut Tables,
    settings: Settings,
    call: Call,
    p: &ProcData,
    l: &LwpData,
) -> Reply
    requires sound { IsSound tables.old.rows }
    requires acting { IsActing p.now l.now tables.old.rows }
    requires runs { is_run p.now ≡ true }
    ensures { Attempts (makes call) (leaves settings call p.now l.now tables.old.rows) tables.old.rows
        tables.new.rows result }
{
    match call {
        Call::Fork => fork(tables, Call::Fork, p, l),
        Call::Vfork => fork(tables, Call::Vfork, p, l),
        Call::Exec => exec(tables, p, l),
        Call::ThrNew => make_lwp(tables, p, l),
        Call::ThrExit => exit_lwp(tables, settings, p, l),
        Call::Exit(status) => exit(tables, settings, status, p),
        Call::Other(code) => {
            let shown = exit_stop(p, Call::Other(code), 0);
            finish(tables, Mode::User, &shown, Reply::Done, p, l)
        }
    }
}
