//! What wait4(2) answers about the caller's children, and the rows after it. A child of the caller is a
//! process that it traces or is the parent of.

ghost use Rattle.std.specs.Prelude.{◌≡◌, ℕ, ◌&&◌, ◌==◌, ltb, true, pos, [], ◌∷◌, Some, IfSome, find, is_some, IfOk};
ghost use Rattle.std.specs.List.{list_any};
ghost use Rattle.proc_table.specs.Processes.{process_of, traces};
ghost use Rattle.proc_table.specs.Kept.{TableInvariant};
ghost use Rattle.proc_table.specs.Keep.{keep};
ghost use Rattle.trace_rows.specs.Facts.{IfEnded, IsSound};
ghost use Rattle.wait4.specs.Collect.{is_child, is_own, fits, numbered, reportable, status_of, stays, names_as, lesser, reported, collect_one, collect, rows_after};

use crate::{Collected, Options, Status};
use pid_blocks::{Pid, in_block_of, owner_of_pid};
use proc_table::{ProcData, State, Tables};
use trace_rows::post_sigchld;

/// How many processes with news a wait looks at before it goes through the caller's children.
const MOST_LOOKS: u32 = 8;

/// How a child names the caller.
#[derive(Clone, Copy, Debug, PartialEq, Eq, Drop)]
pub enum Relation {
    Tracer,
    Parent,
}

/// Tests whether the process is a child of the caller.
fn is_child(caller: Pid, p: &ProcData) -> bool
    ensures { result ≡ is_child caller p.now }
{
    p.tracer == Some(caller) || p.parent == caller.get()
}

/// Tests whether the process is an untraced child of the caller.
fn is_own(caller: Pid, p: &ProcData) -> bool
    ensures { result ≡ is_own caller p.now }
{
    p.tracer.is_none() && p.parent == caller.get()
}

/// Tests whether the process has something to report to the caller.
fn reportable(options: Options, caller: Pid, p: &ProcData) -> bool
    ensures { result ≡ reportable options caller p.now }
{
    match p.state {
        State::Run => p.continued && is_own(caller, p) && options.continued,
        State::Trace { seen, .. } => !seen && p.tracer == Some(caller),
        State::Job { seen, .. } => !seen && p.parent == caller.get() && options.untraced,
        State::Zombie { .. } => p.tracer == Some(caller) || is_own(caller, p),
    }
}

/// Returns the status that a wait reports of a process.
fn status_of(p: &ProcData) -> Status
    requires ended { IfEnded p.now p.now.state }
    ensures { result ≡ status_of p.now }
{
    match p.state {
        State::Run => Status::continued(),
        State::Trace { sig, .. } | State::Job { sig, .. } => Status::stopped(sig),
        State::Zombie { status } => Status::of_word(status).unwrap(),
    }
}

/// Returns the first process that names the caller in this way, as its tracer or as its parent, if any.
fn first_related(tables: &Tables, relation: Relation, caller: Pid) -> Option<ProcData>
    ensures row { result ≡ find (λ p. ltb 0 p.pid && names_as relation caller p) tables.now.rows.processes }
    ensures kept { TableInvariant tables.now.rows }
{
    match relation {
        Relation::Tracer => tables.next_tracee(caller, 0),
        Relation::Parent => tables.next_child(caller, 0),
    }
}

/// Returns the first process that names the caller in this way and has something to report.
fn first_report(
    tables: &Tables,
    relation: Relation,
    caller: Pid,
    options: Options,
) -> Option<ProcData>
    ensures row { result ≡ find (λ p. names_as relation caller p && reportable options caller p) tables.now.rows.processes }
    ensures kept { TableInvariant tables.now.rows }
{
    match relation {
        Relation::Tracer => tables.find_tracee(caller, |p| reportable(options, caller, p)),
        Relation::Parent => tables.find_child(caller, |p| reportable(options, caller, p)),
    }
}

/// The mark of a search that was given up.
#[derive(Clone, Copy, Drop)]
struct Undecided;

/// Returns the process that is reported to a wait for any child, if few of the user's processes have news: looks at
/// `MOST_LOOKS` of them.
fn report_among_news(
    tables: &Tables,
    caller: Pid,
    options: Options,
) -> Result<Option<ProcData>, Undecided>
    requires sound { IsSound tables.now.rows }
    ensures row { IfOk result (λ p. p ≡ find (reportable options caller) tables.now.rows.processes) }
{
    let Some(user) = owner_of_pid(caller.get()) else {
        return Err(Undecided);
    };
    let mut after = 0;
    for _ in 0..MOST_LOOKS {
        let Some(p) = tables.next_news(user, after) else {
            return Ok(None);
        };
        if reportable(options, caller, &p) {
            return Ok(Some(p));
        }
        after = p.pid.get();
    }
    Err(Undecided)
}

/// Returns the process with the lesser number if there are two, and else the one that there is, if any.
fn lesser(a: Option<ProcData>, b: Option<ProcData>) -> Option<ProcData>
    ensures { result ≡ lesser a b }
{
    match (a, b) {
        (Some(p), Some(q)) => Some(if p.pid.get() <= q.pid.get() { p } else { q }),
        (Some(p), None) => Some(p),
        (None, b) => b,
    }
}

/// Returns the caller's child with this number, if there is one. It looks at no row if the number isn't in the block of the
/// caller's user: all children are the user's.
#[inline(always)]
#[tactic(auto, using(crate::proofs::LemmaSets::of_number))]
fn child_by_number(tables: &Tables, caller: Pid, which: i64) -> Option<ProcData>
    requires sound { IsSound tables.now.rows }
    ensures row { result ≡ keep (is_child caller) (numbered which tables.now.rows.processes) }
    ensures kept { TableInvariant tables.now.rows }
{
    tables.assert_invariant();
    let number = u32::try_from(which).ok()?;
    if !in_block_of(caller, number) {
        return None;
    }
    let p = tables.process_by_number(number)?;
    if is_child(caller, &p) { Some(p) } else { None }
}

/// Returns the child that is reported: the first child that has something to report if `which` is -1, and else the
/// child with this number if it has.
#[tactic(auto, using(crate::proofs::LemmaSets::of_report))]
fn reported(tables: &Tables, caller: Pid, which: i64, options: Options) -> Option<ProcData>
    requires sound { IsSound tables.now.rows }
    ensures row { result ≡ reported caller which options tables.now.rows }
    ensures kept { TableInvariant tables.now.rows }
{
    tables.assert_invariant();
    if which == -1 {
        if let Ok(report) = report_among_news(tables, caller, options) {
            return report;
        }
        let tracee = first_report(tables, Relation::Tracer, caller, options);
        let child = first_report(tables, Relation::Parent, caller, options);
        return lesser(tracee, child);
    }
    let p = child_by_number(tables, caller, which)?;
    if reportable(options, caller, &p) {
        Some(p)
    } else {
        None
    }
}

/// Tests whether the caller has a child that the wait is for.
fn has_child(tables: &Tables, caller: Pid, which: i64) -> bool
    requires { IsSound tables.now.rows }
    ensures { result ≡ list_any (λ p. is_child caller p && fits which p) tables.now.rows.processes }
{
    if which == -1 {
        return first_related(tables, Relation::Tracer, caller).is_some()
            || first_related(tables, Relation::Parent, caller).is_some();
    }
    child_by_number(tables, caller, which).is_some()
}

/// Tests whether a zombie stays for its parent after the caller has collected it.
fn stays(caller: Pid, p: &ProcData) -> bool
    ensures { result ≡ stays caller p.now }
{
    p.tracer == Some(caller) && p.parent != 1 && p.parent != caller.get()
}

/// Collects what a process reports to the caller. A stop is marked as reported, and a process is no longer
/// marked as continued. A zombie is removed, or passes from its tracer to its parent, which SIGCHLD notifies.
#[tactic(auto, using(crate::proofs::LemmaSets::of_one))]
fn collect_one(tables: &mut Tables, caller: Pid, p: &ProcData)
    requires sound { IsSound tables.old.rows }
    requires there { process_of p.now.pid tables.old.rows.processes ≡ Some p.now }
    ensures { tables.new.rows ≡ collect_one caller p.now tables.old.rows }
{
    tables.assert_invariant();
    match p.state {
        State::Run => tables.set_process(ProcData {
            continued: false,
            ..*p
        }),
        State::Trace { tid, sig, .. } => {
            let seen = true;
            tables.set_state(p.pid, State::Trace { tid, sig, seen });
        }
        State::Job { sig, .. } => tables.set_state(p.pid, State::Job { sig, seen: true }),
        State::Zombie { .. } if stays(caller, p) => {
            tables.set_process(ProcData { tracer: None, ..*p });
            post_sigchld(tables, p.parent);
        }
        State::Zombie { .. } => tables.remove_process(p.pid),
    }
}

/// Answers a process's wait4(2) for its child with the number `which`, or, if `which` is -1, for any of its children.
/// No child has another negative number. Of several children with something to report, the one with the least number
/// is reported. What is reported is collected. The call never blocks, as under WNOHANG.
pub fn collect(tables: &mut Tables, caller: Pid, which: i64, options: Options) -> Collected
    requires sound { IsSound tables.old.rows }
    ensures collected { result ≡ collect caller which options tables.old.rows }
    ensures rows { tables.new.rows ≡ rows_after caller which options tables.old.rows }
    ensures sound { IsSound tables.new.rows }
{
    match reported(tables, caller, which, options) {
        Some(p) => {
            let status = status_of(&p);
            collect_one(tables, caller, &p);
            Collected::Got(p.pid, status)
        }
        None if has_child(tables, caller, which) => Collected::Nothing,
        None => Collected::NoChild,
    }
}
