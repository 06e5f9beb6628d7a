//! The acts of an LWP in user mode.

ghost use Rattle.std.specs.Prelude.{◌≡◌, Some, true, false};
ghost use Rattle.lwp_table.specs.declared.Mode.TheVariants as mode;
ghost use Rattle.lwp_table.specs.Lwps.{lwp_of};
ghost use Rattle.proc_table.specs.Processes.{is_run};
ghost use Rattle.proc_table.specs.Rows.{change_lwp};
ghost use Rattle.signals.specs.Table.{maskable};
ghost use Rattle.trace_rows.specs.Facts.{IsSound};
ghost use Rattle.requests.specs.Outcome.{Gives};
ghost use Rattle.requests.specs.Actors.{IsActing};
ghost use Rattle.requests.specs.Turn.{computes, raises, enters, acts};

use crate::stopping::{plain, stop_with, trap};
use crate::{Act, Reply};
use event_masks::{Call, entry_flags};
use lwp_table::{LwpData, Mode};
use pid_blocks::Errno;
use proc_table::{ProcData, Tables};
use signals::{SigSet, Signal};
use trace_rows::Settings;
use trace_stop::post_lwp;

/// Clears the LWP's stepping flag.
fn stop_stepping(tables: &mut Tables, l: &LwpData)
    requires { lwp_of l.now.tid tables.old.rows.lwps ≡ Some l.now }
    ensures rows { tables.new.rows ≡ change_lwp l.now.tid (λ k. record k { stepping = false }) tables.old.rows }
{
    tables.assert_invariant();
    tables.set_lwp(LwpData {
        stepping: false,
        ..*l
    });
}

/// Compute: a stepping LWP stops with SIGTRAP, and its stepping ends. For another LWP nothing changes.
fn compute(tables: &mut Tables, p: &ProcData, l: &LwpData) -> Reply
    requires { IsActing p.now l.now tables.old.rows }
    ensures { Gives (computes p.now l.now tables.old.rows) tables.new.rows result }
{
    if !l.stepping {
        return Reply::Done;
    }
    stop_stepping(tables, l);
    stop_with(tables, p, l, &plain(Signal::TRAP))
}

/// Raise: posts a signal to the LWP itself. Refused with EINVAL if the number is not a signal's.
#[tactic(auto, using(crate::proofs::HasLwpAfterChange::runs_live))]
fn raise(tables: &mut Tables, settings: Settings, number: u32, p: &ProcData, l: &LwpData) -> Reply
    requires sound { IsSound tables.old.rows }
    requires acting { IsActing p.now l.now tables.old.rows }
    requires runs { is_run p.now ≡ true }
    ensures { Gives (raises settings number p.now l.now tables.old.rows) tables.new.rows result }
{
    let Ok(signal) = Signal::new(number) else {
        return Reply::Errno(Errno::EINVAL);
    };
    post_lwp(tables, settings, p.pid, l.tid, signal);
    if signal == Signal::KILL {
        Reply::Ended(signal.number())
    } else {
        Reply::Done
    }
}

/// Block: sets the LWP's blocked signals to those of the set that can be blocked.
fn block(tables: &mut Tables, set: SigSet, l: &LwpData)
    requires { lwp_of l.now.tid tables.old.rows.lwps ≡ Some l.now }
    ensures rows { tables.new.rows ≡ change_lwp l.now.tid (λ k. record k { blocked = maskable set }) tables.old.rows }
{
    tables.assert_invariant();
    tables.set_lwp(LwpData {
        blocked: set.maskable(),
        ..*l
    });
}

/// Sets the LWP's mode to that of the call.
fn enter_call(tables: &mut Tables, call: Call, l: &LwpData)
    requires { lwp_of l.now.tid tables.old.rows.lwps ≡ Some l.now }
    ensures rows { tables.new.rows ≡ change_lwp l.now.tid (λ k. record k { mode = mode.InCall call }) tables.old.rows }
{
    tables.assert_invariant();
    tables.set_lwp(LwpData {
        mode: Mode::InCall(call),
        ..*l
    });
}

/// Enter: the LWP enters a call, and stops if its tracer asks for entries.
fn enter(tables: &mut Tables, call: Call, p: &ProcData, l: &LwpData) -> Reply
    requires { IsActing p.now l.now tables.old.rows }
    ensures { Gives (enters call p.now l.now tables.old.rows) tables.new.rows result }
{
    enter_call(tables, call, l);
    match entry_flags(p.mask) {
        Some(flags) => stop_with(tables, p, l, &trap(flags, 0, call)),
        None => Reply::Done,
    }
}

/// Performs the act of an LWP in user mode. Leave is refused with EINVAL.
pub fn act_in_user_mode(
    tables: &mut Tables,
    settings: Settings,
    act: Act,
    p: &ProcData,
    l: &LwpData,
) -> Reply
    requires sound { IsSound tables.old.rows }
    requires acting { IsActing p.now l.now tables.old.rows }
    requires runs { is_run p.now ≡ true }
    ensures { Gives (acts settings act mode.User p.now l.now tables.old.rows) tables.new.rows result }
{
    match act {
        Act::Compute => compute(tables, p, l),
        Act::Raise(number) => raise(tables, settings, number, p, l),
        Act::Block(set) => {
            block(tables, set, l);
            Reply::Done
        }
        Act::Enter(call) => enter(tables, call, p, l),
        Act::Leave => Reply::Errno(Errno::EINVAL),
    }
}
