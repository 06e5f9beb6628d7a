//! Changes of all LWPs of one process.

ghost use Rattle.std.specs.Prelude.{◌≡◌, None, Some};
ghost use Rattle.proc_table.specs.Edits.{map_lwps};
ghost use Rattle.trace_rows.specs.declared.edits.Edit.TheVariants as edit;
ghost use Rattle.trace_rows.specs.Edits.{edited, only, of_others, settled, touched};
ghost use Rattle.trace_rows.specs.Post.{signal_put};

use crate::Stepping;
use lwp_table::{Due, LwpData, Traits};
use pid_blocks::{Pid, Tid};
use proc_table::Tables;
use signals::{SigSet, Signal};

/// Returns a set of pending signals after a signal is posted: to this set if `here`, and else to another set
/// of the process.
pub fn add_pending(pending: SigSet, signal: Signal, here: bool) -> SigSet
    ensures { result ≡ signal_put signal here pending }
{
    let left = pending.difference(SigSet::opposed(signal));
    if here { left.with(signal) } else { left }
}

/// A change of an LWP.
#[derive(Clone, Copy, Debug, PartialEq, Eq, Drop)]
pub enum Edit {
    /// A signal is posted to the LWP `to`, or to its process; then the signals of the set `lost` leave the
    /// LWP's pending set.
    Post {
        signal: Signal,
        to: Option<Tid>,
        lost: SigSet,
    },
    /// The LWP steps, or doesn't, as its process is resumed.
    Step(Stepping),
    /// The LWP is no longer traced; the signals of both sets leave its pending set.
    Detach {
        lost: SigSet,
        unwanted: SigSet,
    },
}

impl Edit {
    /// Returns the number of the LWP for which the change is another one than for the other LWPs, if any.
    fn only(&self) -> Option<Tid>
        ensures { result ≡ only self.now }
    {
        match *self {
            Edit::Post { to, .. } => to,
            Edit::Step(Stepping::Only(tid)) => Some(tid),
            _ => None,
        }
    }

    /// Returns the change of the other LWPs.
    fn of_others(&self) -> Edit
        ensures { result ≡ of_others self.now }
    {
        match *self {
            Edit::Post { signal, lost, .. } => Edit::Post {
                signal,
                to: None,
                lost,
            },
            Edit::Step(Stepping::Only(_)) => Edit::Step(Stepping::Nobody),
            edit => edit,
        }
    }

    /// Returns the traits that the change takes from LWPs.
    fn touched(&self) -> Traits
        ensures { result ≡ touched self.now }
    {
        match *self {
            Edit::Post { signal, lost, .. } => Traits {
                pending: SigSet::opposed(signal).union(lost),
                ..Traits::none()
            },
            Edit::Step(_) => Traits {
                steps: true,
                ..Traits::none()
            },
            Edit::Detach { lost, unwanted } => Traits {
                pending: lost.union(unwanted),
                steps: true,
                held: true,
            },
        }
    }

    /// Returns the LWP after the change.
    fn of(&self, l: &LwpData) -> LwpData
        ensures { result ≡ edited self.now l.now }
    {
        match *self {
            Edit::Post { signal, to, lost } => {
                let here = to == Some(l.tid);
                LwpData {
                    pending: add_pending(l.pending, signal, here).difference(lost),
                    ..*l
                }
            }
            Edit::Step(stepping) => LwpData {
                stepping: stepping.of(l),
                ..*l
            },
            Edit::Detach { lost, unwanted } => LwpData {
                stepping: false,
                suspended: false,
                due: Due::Nothing,
                pending: l.pending.difference(lost).difference(unwanted),
                ..*l
            },
        }
    }
}

/// Changes each LWP of a process, if the change makes no difference between them. Looks only at LWPs that it may touch.
#[inline(always)]
fn edit_alike(tables: &mut Tables, pid: Pid, edit: &Edit)
    requires { only edit.now ≡ None }
    ensures { tables.new.rows ≡ map_lwps pid (edited edit.now) tables.old.rows }
{
    tables.edit_touched_lwps(pid, &edit.touched(), |l| edit.of(l));
}

/// Changes each LWP of a process, and the one with the number `tid` otherwise than the others.
#[inline(never)]
fn edit_apart(tables: &mut Tables, pid: Pid, tid: Tid, edit: &Edit)
    requires { only edit.now ≡ Some tid }
    ensures { tables.new.rows ≡ map_lwps pid (edited edit.now) tables.old.rows }
{
    let found = tables.lwp(tid);
    edit_alike(tables, pid, &edit.of_others());
    if let Some(l) = found {
        if l.pid == pid {
            tables.set_lwp(edit.of(&l));
        }
    }
}

/// Changes each LWP of a process. Looks only at LWPs that the change may touch.
#[inline(always)]
pub fn edit_lwps(tables: &mut Tables, pid: Pid, edit: &Edit)
    ensures { tables.new.rows ≡ map_lwps pid (edited edit.now) tables.old.rows }
{
    match edit.only() {
        Some(tid) => edit_apart(tables, pid, tid, edit),
        None => edit_alike(tables, pid, edit),
    }
}

/// Returns the LWP after the signals of the set have left its pending set.
fn settled(l: &LwpData, lost: SigSet) -> LwpData
    ensures { result ≡ settled lost l.now }
{
    LwpData {
        pending: l.pending.difference(lost),
        ..*l
    }
}

/// Removes the signals of the set from the pending sets of each LWP of a process. Looks only at LWPs with pending
/// signals.
#[inline(always)]
pub fn settle_lwps(tables: &mut Tables, pid: Pid, lost: SigSet)
    ensures { tables.new.rows ≡ map_lwps pid (settled lost) tables.old.rows }
{
    let pending = Traits {
        pending: lost,
        ..Traits::none()
    };
    tables.edit_touched_lwps(pid, &pending, |l| settled(l, lost));
}

/// Changes each LWP of a process as the post of a signal does: to the process, or to its LWP `to`. Then the signals of
/// the set `lost` leave the pending sets.
#[inline(always)]
pub fn post_lwps(tables: &mut Tables, pid: Pid, signal: Signal, to: &Option<Tid>, lost: SigSet)
    ensures { tables.new.rows ≡ map_lwps pid (edited (edit.Post signal to.now lost)) tables.old.rows }
{
    match *to {
        None => settle_lwps(tables, pid, SigSet::opposed(signal).union(lost)),
        to => edit_lwps(tables, pid, &Edit::Post { signal, to, lost }),
    }
}
