//! Signals that kill(2) sends.

ghost use Rattle.std.specs.Prelude.{◌≡◌, ◌==◌, ◌&&◌, not, true, negsuc, filter, option_map};
ghost use Rattle.signals.specs.Table.{SIGKILL, opposed};
ghost use Rattle.trace_rows.specs.Post.{posted_set};
ghost use Rattle.proc_table.specs.Processes.{process_of, of_user};
ghost use Rattle.proc_table.specs.Seen.{visible_process};
ghost use Rattle.proc_table.specs.Kept.{TableInvariant};
ghost use Rattle.proc_table.specs.Walks.{next_of};
ghost use Rattle.trace_rows.specs.Facts.{IsSound};
ghost use Rattle.requests.specs.Outcome.{Gives};
ghost use Rattle.requests.specs.Kill.{reach, post_if_live, reached, kill, next_other};

use crate::Reply;
use pid_blocks::{Errno, Pid, Uid};
use proc_table::{ProcData, Tables};
use signals::{Pass, SigSet, Signal};
use trace_rows::Settings;
use trace_stop::post_process;

/// Tests whether the post of the signal to the process leaves all rows as they are: the signal is pending already or is
/// discarded, and takes no other one away.
fn posts_nothing(process: &ProcData, signal: Signal) -> bool
    ensures { result ≡ (not (signal == SIGKILL) && ((opposed signal == 0) && (posted_set signal true process.now process.now.pending == process.now.pending))) }
{
    let opposed = SigSet::opposed(signal);
    let unwanted = if process.tracer.is_some() {
        SigSet::empty()
    } else {
        process.dispositions.nothing()
    };
    let posted = process.pending.difference(opposed).with(signal);
    signal != Signal::KILL && opposed.is_empty() && posted.difference(unwanted) == process.pending
}

/// Posts the signal to the process with this number, if it exists and is live. Signal 0 is not posted.
#[inline(always)]
#[tactic(auto, using(crate::proofs::KillReaches::dead_posts))]
fn post_if_live(tables: &mut Tables, settings: Settings, pid: Pid, pass: Pass)
    requires sound { IsSound tables.old.rows }
    ensures rows { tables.new.rows ≡ post_if_live settings pass (process_of pid tables.old.rows.processes) tables.old.rows }
    ensures sound { IsSound tables.new.rows }
{
    let Some(signal) = pass.signal() else {
        return;
    };
    let Some(process) = tables.process(pid) else {
        return;
    };
    if process.is_live() && !posts_nothing(&process, signal) {
        post_process(tables, settings, &process, signal);
    }
}

/// Returns the number of the user's next process above the caller.
#[inline(never)]
fn next_above(tables: &Tables, user: Uid, caller: Pid) -> Option<Pid>
    ensures { result ≡ option_map (λ p. p.pid) (next_of user caller tables.now.rows.processes) }
{
    tables.next_pid(user, caller.get())
}

/// Returns the number of the user's next process above `after` other than the caller.
#[inline(always)]
#[tactic(auto, using(std::proofs::lemmas::Bool::Decides::nat_tests, crate::proofs::NextOther::other_laws))]
fn next_other(tables: &Tables, user: Uid, caller: Pid, after: u32) -> Option<Pid>
    ensures next { result ≡ option_map (λ p. p.pid) (next_other user caller after tables.now.rows.processes) }
    ensures kept { TableInvariant tables.now.rows }
{
    let Some(pid) = tables.next_pid(user, after) else {
        return None;
    };
    if pid == caller {
        return next_above(tables, user, caller);
    }
    Some(pid)
}

/// Sends the signal to all of the user's processes except the caller, by rising number. Refused with ESRCH if there
/// is none.
#[tactic(auto, using(std::proofs::lemmas::Bool::Decides::nat_tests, crate::proofs::KillReaches::reached_none, crate::proofs::KillReaches::next_smaller, crate::proofs::KillReaches::rest_next))]
fn kill_others(tables: &mut Tables, settings: Settings, user: Uid, caller: Pid, pass: Pass) -> Reply
    requires sound { IsSound tables.old.rows }
    ensures { Gives (reached settings pass (reach user caller (negsuc 0) tables.old.rows) tables.old.rows)
        tables.new.rows result }
{
    let mut at = next_other(tables, user, caller, 0);
    if at.is_none() {
        return Reply::Errno(Errno::ESRCH);
    }
    if pass.signal().is_none() {
        return Reply::Done;
    }
    while let Some(pid) = at {
        post_if_live(tables, settings, pid, pass);
        at = next_other(tables, user, caller, pid.get());
    }
    Reply::Done
}

/// Returns the number as a process number, if a process of the user has it.
fn seen_pid(tables: &Tables, user: Uid, number: u32) -> Option<Pid>
    ensures seen { result ≡ option_map (λ p. p.pid) (visible_process user number tables.now.rows) }
    ensures kept { TableInvariant tables.now.rows }
{
    match tables.visible_process(user, number) {
        Some(p) => Some(p.pid),
        None => None,
    }
}

/// Sends the signal to the user's process with this number. Refused with ESRCH if there is none.
fn kill_one(tables: &mut Tables, settings: Settings, user: Uid, number: u32, pass: Pass) -> Reply
    requires sound { IsSound tables.old.rows }
    ensures { Gives (reached settings pass (filter (λ p. p.pid == number)
        (of_user user tables.old.rows.processes)) tables.old.rows) tables.new.rows result }
{
    let Some(pid) = seen_pid(tables, user, number) else {
        return Reply::Errno(Errno::ESRCH);
    };
    post_if_live(tables, settings, pid, pass);
    Reply::Done
}

/// Sends a signal as kill(2) does, for a caller that runs: to the user's process with the number `which`, or for -1 to
/// all other processes of the user by rising number. Signal 0 is not sent. Refused with EINVAL for a signal above 31,
/// and if `which` is 0 or below -1; with ESRCH if there is no such process.
pub fn kill(
    tables: &mut Tables,
    settings: Settings,
    user: Uid,
    caller: Pid,
    which: i64,
    sig: u32,
) -> Reply
    requires sound { IsSound tables.old.rows }
    ensures { Gives (kill settings user caller which sig tables.old.rows) tables.new.rows result }
{
    let Ok(pass) = Pass::new(sig) else {
        return Reply::Errno(Errno::EINVAL);
    };
    if which == -1 {
        return kill_others(tables, settings, user, caller, pass);
    }
    if which < 1 {
        return Reply::Errno(Errno::EINVAL);
    }
    match u32::try_from(which) {
        Ok(number) => kill_one(tables, settings, user, number, pass),
        Err(_) => Reply::Errno(Errno::ESRCH),
    }
}
