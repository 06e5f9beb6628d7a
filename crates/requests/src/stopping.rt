//! Stops of a process at a turn, and the end of a call.

ghost use Rattle.std.specs.Prelude.{◌≡◌, ◌&&◌, ℕ, is_some, true};
ghost use Rattle.event_masks.specs.Exits.{asks};
ghost use Rattle.lwp_table.specs.Lwps.{lwp_of};
ghost use Rattle.step_types.specs.declared.Reply.TheVariants as reply;
ghost use Rattle.requests.specs.Actors.{HasLwp};
ghost use Rattle.requests.specs.Outcome.{Gives, stops_with, stops_or, trap};
ghost use Rattle.requests.specs.Leave.{in_mode, exit_stop};
ghost use Rattle.requests.specs.Turn.{plain};

use crate::Reply;
use event_masks::{Call, EventMask, StopFlags, call_code, exit_flags};
use lwp_table::{LwpData, Mode};
use pid_blocks::Tid;
use proc_table::{ProcData, Tables};
use signals::Signal;
use trace_rows::{StopInfo, stop};

/// Returns a stop that shows only a signal.
pub fn plain(signal: Signal) -> StopInfo
    ensures { result ≡ plain signal }
{
    StopInfo {
        sig: signal,
        flags: StopFlags::none(),
        child: 0,
        code: 0,
    }
}

/// Returns a SIGTRAP stop in a call. It shows the call's code at the call's entry and exit.
pub fn trap(flags: StopFlags, child: u32, call: Call) -> StopInfo
    ensures { result ≡ trap flags child call }
{
    let at_edge = flags.shows(StopFlags::PL_FLAG_SCE) || flags.shows(StopFlags::PL_FLAG_SCX);
    StopInfo {
        sig: Signal::TRAP,
        flags,
        child,
        code: if at_edge { call_code(call) } else { 0 },
    }
}

fn stopped(tid: Tid, shown: &StopInfo) -> Reply
    ensures { result ≡ reply.Stopped tid shown.now.sig shown.now.flags }
{
    Reply::Stopped {
        tid,
        sig: shown.sig,
        flags: shown.flags,
    }
}

/// Stops the process by a trace stop of the LWP, and returns the reply.
pub fn stop_with(tables: &mut Tables, p: &ProcData, l: &LwpData, shown: &StopInfo) -> Reply
    requires { HasLwp p.now.pid l.now.tid tables.old.rows }
    ensures { Gives (stops_with shown.now p.now l.now tables.old.rows) tables.new.rows result }
{
    stop(tables, p.pid, l.tid, shown);
    stopped(l.tid, shown)
}

/// Sets the mode of the LWP.
pub fn set_mode(tables: &mut Tables, tid: Tid, mode: Mode)
    requires { is_some (lwp_of tid tables.old.rows.lwps) ≡ true }
    ensures rows { tables.new.rows ≡ in_mode mode tid tables.old.rows }
    ensures there { (pid : ℕ) → HasLwp pid tid tables.old.rows → HasLwp pid tid tables.new.rows }
{
    let l = tables.lwp(tid).unwrap();
    tables.set_lwp(LwpData { mode, ..l });
}

/// Returns whether the process has a tracer that asks for the event.
pub fn is_asked(p: &ProcData, event: EventMask) -> bool
    ensures { result ≡ (is_some p.now.tracer && asks p.now.mask event) }
{
    p.tracer.is_some() && p.mask.asks(event)
}

/// Returns the stop at the exit of a call, if the event mask asks for one. It names the child if it reports a fork.
pub fn exit_stop(p: &ProcData, call: Call, child: u32) -> Option<StopInfo>
    ensures { result ≡ exit_stop p.now call child }
{
    match exit_flags(p.mask, call) {
        Some(flags) => {
            let tells = flags.shows(StopFlags::PL_FLAG_FORKED);
            Some(trap(flags, if tells { child } else { 0 }, call))
        }
        None => None,
    }
}

/// Stops the process by the LWP if there is a stop, and returns its reply. Otherwise it returns `answer`.
pub fn stop_or(
    tables: &mut Tables,
    shown: &Option<StopInfo>,
    answer: Reply,
    p: &ProcData,
    l: &LwpData,
) -> Reply
    requires { HasLwp p.now.pid l.now.tid tables.old.rows }
    ensures { Gives (stops_or shown.now answer p.now l.now tables.old.rows) tables.new.rows result }
{
    match shown {
        Some(shown) => stop_with(tables, p, l, shown),
        None => answer,
    }
}

/// Ends a call: sets the mode of its LWP, and stops it if there is a stop. Otherwise it returns the call's answer.
pub fn finish(
    tables: &mut Tables,
    mode: Mode,
    shown: &Option<StopInfo>,
    answer: Reply,
    p: &ProcData,
    l: &LwpData,
) -> Reply
    requires { HasLwp p.now.pid l.now.tid tables.old.rows }
    ensures { Gives (stops_or shown.now answer p.now l.now (in_mode mode l.now.tid tables.old.rows))
        tables.new.rows result }
{
    set_mode(tables, l.tid, mode);
    stop_or(tables, shown, answer, p, l)
}
