//! The turn of an LWP: a due stop, a signal, or its act.

ghost use Rattle.std.specs.Prelude.{◌≡◌, true, false, Some, IfSome};
ghost use Rattle.signals.specs.Table.{disposition_of};
ghost use Rattle.lwp_table.specs.declared.Due.TheVariants as due;
ghost use Rattle.trace_rows.specs.Sound.{is_live_at};
ghost use Rattle.event_masks.specs.Exits.{no_flags};
ghost use Rattle.proc_table.specs.Kept.{IsRow};
ghost use Rattle.proc_table.specs.Rows.{change_lwp};
ghost use Rattle.proc_table.specs.Processes.{is_run};
ghost use Rattle.trace_rows.specs.Facts.{IsSound};
ghost use Rattle.step_types.specs.declared.Reply.TheVariants as reply;
ghost use Rattle.requests.specs.Actors.{IsActing, HasLwp};
ghost use Rattle.requests.specs.Turn.{without_signal, job_stops, takes, takes_untraced, next_signal, due_stop, waits, acts, turn_of, turn};
ghost use Rattle.requests.specs.Outcome.{Gives, stops_with};
ghost use Rattle.requests.specs.Memory.{leaves_making, turn_makes, Attempts};
ghost use Rattle.proc_table.specs.Seen.{seen_lwp};

use crate::acts::act_in_user_mode;
use crate::leave::leave;
use crate::stopping::{plain, stop_with, trap};
use crate::{Act, Reply};
use event_masks::{Call, StopFlags};
use lwp_table::{Due, LwpData, Mode};
use pid_blocks::{Errno, Tid, Uid};
use proc_table::{ProcData, State, Tables};
use signals::{Action, Disposition, Signal, default_action};
use trace_rows::{Settings, StopInfo, post_sigchld};
use trace_stop::end;

/// Returns whether an LWP waits for the child of its vfork.
fn waits(mode: Mode) -> bool
    ensures { result ≡ waits mode }
{
    matches!(mode, Mode::VforkWait(_))
}

/// Returns what the due stop shows, if one is due.
fn due_stop(due: Due) -> Option<StopInfo>
    ensures { result ≡ due_stop due }
{
    match due {
        Due::Nothing => None,
        Due::Born => Some(trap(
            StopFlags::PL_FLAG_BORN.with(StopFlags::PL_FLAG_SCX),
            0,
            Call::ThrNew,
        )),
        Due::Begun => Some(trap(StopFlags::PL_FLAG_SCX, 0, Call::ThrNew)),
        Due::VforkDone => Some(trap(StopFlags::PL_FLAG_VFORK_DONE, 0, Call::Vfork)),
    }
}

/// Returns the lowest pending signal that isn't blocked. An LWP in user mode takes it at its turn.
fn next_signal(p: &ProcData, l: &LwpData) -> Option<Signal>
    ensures { result ≡ next_signal p.now l.now }
{
    match l.mode {
        Mode::User => l.pending.union(p.pending).difference(l.blocked).lowest(),
        Mode::InCall(_) | Mode::VforkWait(_) => None,
    }
}

/// Removes a pending signal from the LWP's own set, or else from its process's.
#[tactic(auto, using(proc_table::proofs::Rows::found_row, proc_table::proofs::Stays::lwp_there))]
fn drop_signal(tables: &mut Tables, signal: Signal, p: &ProcData, l: &LwpData)
    requires { IsActing p.now l.now tables.old.rows }
    ensures { tables.new.rows ≡ without_signal signal p.now l.now tables.old.rows }
{
    tables.assert_invariant();
    if l.pending.contains(signal) {
        tables.set_lwp(LwpData {
            pending: l.pending.without(signal),
            ..*l
        });
    } else {
        tables.set_pending(p.pid, p.pending.without(signal));
    }
}

fn job_stopped(tid: Tid, signal: Signal) -> Reply
    ensures { result ≡ reply.Stopped tid signal no_flags }
{
    Reply::Stopped {
        tid,
        sig: signal,
        flags: StopFlags::none(),
    }
}

/// Stops a process for job control, and notifies its parent.
#[tactic(auto, using(proc_table::proofs::Seen::has_row))]
fn job_stop(tables: &mut Tables, signal: Signal, p: &ProcData, l: &LwpData) -> Reply
    requires { IsRow tables.old.rows p.now.pid }
    ensures { Gives (job_stops signal p.now l.now tables.old.rows) tables.new.rows result }
{
    let row = tables.process(p.pid).unwrap();
    tables.set_process(ProcData {
        state: State::Job {
            sig: signal,
            seen: false,
        },
        continued: false,
        ..row
    });
    post_sigchld(tables, p.parent);
    job_stopped(l.tid, signal)
}

/// Acts on a signal that an untraced process takes, by the signal's disposition.
#[tactic(auto, using(trace_rows::proofs::Found::listed))]
fn take_untraced(
    tables: &mut Tables,
    settings: Settings,
    signal: Signal,
    p: &ProcData,
    l: &LwpData,
) -> Reply
    requires sound { IsSound tables.old.rows }
    requires live { is_live_at p.now.pid tables.old.rows ≡ true }
    ensures { Gives (takes_untraced settings signal
        (disposition_of p.now.dispositions signal) p.now l.now tables.old.rows) tables.new.rows result }
{
    match p.dispositions.get(signal) {
        Disposition::Ignore => Reply::Done,
        Disposition::Catch => Reply::Caught(signal),
        Disposition::Default => match default_action(signal) {
            Action::End => {
                end(tables, settings, p.pid, signal.number());
                Reply::Ended(signal.number())
            }
            Action::Stop => job_stop(tables, signal, p, l),
            Action::Discard => Reply::Done,
        },
    }
}

/// Takes a pending signal of an LWP. A traced process stops; an untraced one acts by the signal's disposition.
#[inline(never)]
fn take_signal(
    tables: &mut Tables,
    settings: Settings,
    signal: Signal,
    p: &ProcData,
    l: &LwpData,
) -> Reply
    requires sound { IsSound tables.old.rows }
    requires acting { IsActing p.now l.now tables.old.rows }
    requires runs { is_run p.now ≡ true }
    ensures { Gives (takes settings signal p.now l.now (without_signal signal p.now l.now tables.old.rows))
        tables.new.rows result }
{
    drop_signal(tables, signal, p, l);
    if p.tracer.is_some() {
        stop_with(tables, p, l, &plain(signal))
    } else {
        take_untraced(tables, settings, signal, p, l)
    }
}

/// Stops the LWP with its due stop, and clears it. It is apart, so that other turns need no room for a stop.
#[inline(never)]
#[tactic(auto, using(proc_table::proofs::Stays::lwp_there))]
fn take_due(tables: &mut Tables, p: &ProcData, l: &LwpData) -> Reply
    requires { IsActing p.now l.now tables.old.rows }
    ensures { let cleared = change_lwp l.now.tid (λ k. record k { due = due.Nothing }) tables.old.rows in
        IfSome (due_stop l.now.due) (λ shown. Gives (stops_with shown p.now l.now cleared) tables.new.rows result) }
{
    let Some(shown) = due_stop(l.due) else {
        return Reply::Held;
    };
    tables.assert_invariant();
    tables.set_lwp(LwpData {
        due: Due::Nothing,
        ..*l
    });
    stop_with(tables, p, l, &shown)
}

/// Performs the act of an LWP, by its mode. Refused with EINVAL if the mode doesn't allow the act, and with ENOMEM if
/// memory runs out. A refusal changes nothing.
fn act_in_mode(
    tables: &mut Tables,
    settings: Settings,
    act: Act,
    p: &ProcData,
    l: &LwpData,
) -> Reply
    requires sound { IsSound tables.old.rows }
    requires acting { IsActing p.now l.now tables.old.rows }
    requires runs { is_run p.now ≡ true }
    ensures { let outcome = acts settings act l.now.mode p.now l.now tables.old.rows in
        Attempts (leaves_making act l.now.mode) outcome tables.old.rows tables.new.rows result }
{
    match l.mode {
        Mode::User => act_in_user_mode(tables, settings, act, p, l),
        Mode::InCall(call) => match act {
            Act::Leave => leave(tables, settings, call, p, l),
            Act::Compute | Act::Raise(_) | Act::Block(_) | Act::Enter(_) => {
                Reply::Errno(Errno::EINVAL)
            }
        },
        Mode::VforkWait(_) => Reply::Errno(Errno::EINVAL),
    }
}

/// Makes the turn of an LWP of a process. `Held` if the process doesn't run, or the LWP is suspended or waits. Refused
/// with ENOMEM if memory runs out, which changes nothing.
fn turn_of(tables: &mut Tables, settings: Settings, act: Act, p: &ProcData, l: &LwpData) -> Reply
    requires sound { IsSound tables.old.rows }
    requires acting { IsActing p.now l.now tables.old.rows }
    ensures { let outcome = turn_of settings act p.now l.now tables.old.rows in
        Attempts (turn_makes act (Some l.now)) outcome tables.old.rows tables.new.rows result }
{
    if !p.is_run() || l.suspended || waits(l.mode) {
        return Reply::Held;
    }
    match l.due {
        Due::Nothing => match next_signal(p, l) {
            Some(signal) => take_signal(tables, settings, signal, p, l),
            None => act_in_mode(tables, settings, act, p, l),
        },
        Due::Born | Due::Begun | Due::VforkDone => take_due(tables, p, l),
    }
}

/// Makes the turn of the user's LWP with this number: a due stop, a signal, or its act. Refused with ESRCH if the
/// user has no such LWP, and with ENOMEM if memory runs out. A refusal changes nothing.
pub fn turn(tables: &mut Tables, settings: Settings, user: Uid, tid: u32, act: Act) -> Reply
    requires sound { IsSound tables.old.rows }
    ensures { let outcome = turn settings user tid act tables.old.rows in
        Attempts (turn_makes act (seen_lwp user tid tables.old.rows)) outcome tables.old.rows tables.new.rows result }
{
    tables.assert_invariant();
    let Some(l) = tables.seen_lwp(user, tid) else {
        return Reply::Errno(Errno::ESRCH);
    };
    let Some(p) = tables.process(l.pid) else {
        return Reply::Errno(Errno::ESRCH);
    };
    turn_of(tables, settings, act, &p, &l)
}
