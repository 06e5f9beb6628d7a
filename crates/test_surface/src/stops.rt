//! What stops, resumes and ends a process, what a wait collects, and what a debugger reads of an LWP.

ghost use Rattle.std.specs.Prelude.{◌≡◌, true, IfOk, IsTrue, IsSomeAnd, is_some};
ghost use Rattle.proc_table.specs.Processes.{process_of, reporting};
ghost use Rattle.trace_rows.specs.Facts.{IsSound};
ghost use Rattle.trace_rows.specs.Sound.{is_live_at};

use event_masks::StopFlags;
use lwpinfo::{Event, LwpInfo, NumList, info, lwp_count, lwp_list};
use pid_blocks::{Pid, Tid};
use proc_table::{ProcData, State, Tables};
use requests::Host;
use signals::{Pass, SigSet, Signal};
use std::alloc::Global;
use stop_handlers::ByPolicy;
use test_kit::{TestError, expect, host_after, rows_of};
use trace_stop::{Settings, StopInfo, detach, end, post, post_lwp, resume, settle, stop};
use wait4::{Collected, Options, Status, StatusKind, collect};

pub fn check(rt: &impl Print, alloc: Global) -> Result<(), TestError> {
    statuses_have_kinds()?;
    each_part_is_made(alloc)?;
    new_lwps_have_no_event(alloc)?;
    println!(rt; "stops: 3 checks passed")?;
    Ok(())
}

/// Process 1000 has attached to process 1001, and a wait has reported the stop.
const REPORTED: &str = "
spawn -> new 1000 100000
1002: spawn -> new 2000 104000
spawn -> new 1001 100001
ptrace 1000 PT_ATTACH 1001 -> ok
wait4 1000 -1 -> status 1001 4479
";

/// The tracee has made an LWP, and stopped in the call that made it.
const MADE: &str = "
spawn -> new 1000 100000
spawn -> new 1001 100001
ptrace 1000 PT_ATTACH 1001 -> ok
wait4 1000 -1 -> status 1001 4479
ptrace 1000 PT_SET_EVENT_MASK 1001 PTRACE_LWP PTRACE_SCX -> ok
ptrace 1000 PT_CONTINUE 1001 -> ok
turn 100001 enter thr_new -> ok
turn 100001 leave -> stopped 100001 5 flags=PL_FLAG_SCX
wait4 1000 -1 -> status 1001 1407
";

/// The debugger, its tracee, and the tracee's LWP.
#[derive(Drop)]
struct Traced {
    debugger: Pid,
    pid: Pid,
    tid: Tid,
}

impl Traced {
    fn new() -> Result<Traced, TestError> {
        match (Pid::new(1000), Pid::new(1001), Tid::new(100001)) {
            (Some(debugger), Some(pid), Some(tid)) => Ok(Traced { debugger, pid, tid }),
            _ => Err(TestError::Wrong("a number is lost")),
        }
    }
}

/// Returns a copy of the host's rows.
fn copy_of_rows(host: &Host<ByPolicy>) -> Result<Tables, TestError>
    ensures { IfOk result (λ tables. IsSound tables.rows) }
{
    host.assert_invariant();
    let tables = host.tables().clone()?;
    Ok(tables)
}

/// Returns the rows of a host after these steps.
fn tables_after(alloc: Global, text: &str) -> Result<Tables, TestError>
    ensures { IfOk result (λ tables. IsSound tables.rows) }
{
    let lines = rows_of(alloc, text)?;
    let host = host_after(alloc, lines.as_slice(), None)?;
    copy_of_rows(&host)
}

/// Tests whether a live process has the number.
#[tactic(auto, using(requests::proofs::SoundAfterCall::live_found, requests::proofs::SoundAfterCall::live_none))]
fn is_live(tables: &Tables, pid: Pid) -> bool
    ensures { result ≡ is_live_at pid tables.now.rows }
{
    match tables.process(pid) {
        Some(process) => process.is_live(),
        None => false,
    }
}

/// Tests whether the process is in a trace stop.
#[tactic(auto, using(crate::proofs::Found::found_rows))]
fn is_stopped(tables: &Tables, pid: Pid) -> bool
    ensures { IsTrue result → IsSomeAnd (process_of pid tables.now.rows.processes) (λ p. is_some (reporting p) ≡ true) }
{
    match tables.process(pid) {
        Some(process) => process.reporting().is_some(),
        None => false,
    }
}

/// Returns the process, which has to be there.
fn process(tables: &Tables, pid: Pid) -> Result<ProcData, TestError> {
    let found = tables.process(pid);
    found.ok_or(TestError::Wrong("a process isn't there"))
}

/// Checks what a wait of the debugger collects.
fn check_wait(
    tables: &mut Tables,
    debugger: Pid,
    which: i64,
    wanted: Collected,
) -> Result<(), TestError>
    requires sound { IsSound tables.old.rows }
    ensures sound { IsSound tables.new.rows }
{
    let options = Options {
        untraced: false,
        continued: false,
    };
    let is_wanted = collect(tables, debugger, which, options) == wanted;
    expect(is_wanted, "a wait collects something else")
}

/// Returns what a wait collects if the process reports the status of this word.
fn got(pid: Pid, word: u32) -> Result<Collected, TestError> {
    match Status::of_word(word) {
        Some(status) => Ok(Collected::Got(pid, status)),
        None => Err(TestError::Wrong("a status has no word")),
    }
}

/// Checks that a wait of the debugger collects the status of this word, and the next one this.
fn check_waits(
    tables: &mut Tables,
    traced: &Traced,
    word: u32,
    next: Collected,
) -> Result<(), TestError>
    requires sound { IsSound tables.old.rows }
{
    check_wait(tables, traced.debugger, 1500, Collected::NoChild)?;
    check_wait(tables, traced.debugger, -1, got(traced.pid, word)?)?;
    check_wait(tables, traced.debugger, -1, next)
}

fn statuses_have_kinds() -> Result<(), TestError> {
    for (word, kind) in [
        (768, StatusKind::Exited(3)),
        (9, StatusKind::Signaled(Signal::new(9)?)),
        (1407, StatusKind::Stopped(Signal::new(5)?)),
        (19, StatusKind::Continued),
    ] {
        match Status::of_word(word) {
            Some(status) => expect(status.kind() == kind, "a status has another kind")?,
            None => return Err(TestError::Wrong("a status has no word")),
        }
    }
    Ok(())
}

/// Resumes the process without a signal, if it is in a trace stop, and returns whether it was.
fn resume_stopped(tables: &mut Tables, pid: Pid) -> Result<(), TestError>
    requires sound { IsSound tables.old.rows }
    ensures sound { IsSound tables.new.rows }
{
    if !is_stopped(tables, pid) {
        return Err(TestError::Wrong("a process isn't in a trace stop"));
    }
    resume(tables, Settings::standard(), pid, Pass::new(0)?);
    Ok(())
}

/// Posts the signal to the process, and then to its LWP.
fn post_twice(tables: &mut Tables, pid: Pid, tid: Tid, signal: Signal) -> Result<(), TestError>
    requires sound { IsSound tables.old.rows }
    ensures sound { IsSound tables.new.rows }
{
    if !is_live(tables, pid) {
        return Err(TestError::Wrong("a process isn't live"));
    }
    post(tables, Settings::standard(), pid, signal);
    if !is_live(tables, pid) {
        return Err(TestError::Wrong("a signal ends a traced process"));
    }
    post_lwp(tables, Settings::standard(), pid, tid, signal);
    Ok(())
}

/// Checks that the process runs.
fn check_running(tables: &Tables, pid: Pid) -> Result<(), TestError> {
    let is_running = process(tables, pid)?.state == State::Run;
    expect(is_running, "a resumed process doesn't run")
}

/// Checks that the signal is pending for the process and for its LWP.
fn check_pending(tables: &Tables, traced: &Traced, signal: Signal) -> Result<(), TestError> {
    let is_pending = process(tables, traced.pid)?.pending.contains(signal);
    expect(is_pending, "a posted signal isn't pending")?;
    let lwp = tables.lwp(traced.tid);
    let lwp = lwp.ok_or(TestError::Wrong("an LWP isn't there"))?;
    let is_pending = lwp.pending.contains(signal);
    expect(is_pending, "a signal posted to an LWP isn't pending")
}

/// Resumes the process, and posts the signal to it and to its LWP.
fn resume_and_post(tables: &mut Tables, traced: &Traced, signal: Signal) -> Result<(), TestError>
    requires sound { IsSound tables.old.rows }
{
    resume_stopped(tables, traced.pid)?;
    check_running(tables, traced.pid)?;
    post_twice(tables, traced.pid, traced.tid, signal)
}

/// Stops the process by this LWP of it.
#[tactic(auto, using(crate::proofs::Found::found_rows))]
fn stop_by(tables: &mut Tables, pid: Pid, tid: Tid, shown: &StopInfo) -> Result<(), TestError> {
    if tables.process(pid).is_none() {
        return Err(TestError::Wrong("a process isn't there"));
    }
    match tables.lwp(tid) {
        Some(lwp) if lwp.pid == pid => stop(tables, pid, tid, shown),
        _ => return Err(TestError::Wrong("an LWP isn't there")),
    }
    Ok(())
}

/// Checks that the process has stopped by its LWP as shown, which no wait has reported.
fn check_stop(tables: &Tables, traced: &Traced, shown: &StopInfo) -> Result<(), TestError> {
    let (tid, sig, seen) = (traced.tid, shown.sig, false);
    let is_stopped = process(tables, traced.pid)?.state == State::Trace { tid, sig, seen };
    expect(is_stopped, "a process isn't in a trace stop")?;
    match info(tables, traced.pid, tid) {
        Some(read) if read.flags == shown.flags && read.code == shown.code => Ok(()),
        _ => Err(TestError::Wrong("a debugger reads something else")),
    }
}

/// Detaches the process without a signal.
fn detach_stopped(tables: &mut Tables, pid: Pid) -> Result<(), TestError>
    requires sound { IsSound tables.old.rows }
    ensures sound { IsSound tables.new.rows }
{
    if !is_stopped(tables, pid) {
        return Err(TestError::Wrong("a process isn't in a trace stop"));
    }
    detach(tables, Settings::standard(), pid, Pass::new(0)?);
    Ok(())
}

/// Settles the process, if it is there.
#[tactic(auto, using(crate::proofs::Found::found_rows))]
fn settle_found(tables: &mut Tables, pid: Pid) {
    if tables.process(pid).is_some() {
        settle(tables, pid);
    }
}

/// Checks that settling the process, which runs untraced without pending signals, leaves it as it is.
fn check_settled(tables: &mut Tables, pid: Pid) -> Result<(), TestError> {
    let detached = process(tables, pid)?;
    let is_untraced = detached.state == State::Run && detached.tracer.is_none();
    expect(is_untraced, "a detached process is traced")?;
    settle_found(tables, pid);
    let is_same = process(tables, pid)? == detached;
    expect(is_same, "a process without pending signals isn't settled")
}

/// Ends the process as _exit(2) with 3 does.
fn exit(tables: &mut Tables, pid: Pid) -> Result<(), TestError>
    requires sound { IsSound tables.old.rows }
    ensures sound { IsSound tables.new.rows }
{
    if !is_live(tables, pid) {
        return Err(TestError::Wrong("a process isn't live"));
    }
    end(tables, Settings::standard(), pid, 768);
    Ok(())
}

/// Checks that a process that exits is a zombie until a wait of its debugger has collected its status.
fn check_exit(tables: &mut Tables, traced: &Traced) -> Result<(), TestError>
    requires sound { IsSound tables.old.rows }
{
    exit(tables, traced.pid)?;
    let is_zombie = process(tables, traced.pid)?.state == State::Zombie { status: 768 };
    expect(is_zombie, "an ended process is no zombie")?;
    check_waits(tables, traced, 768, Collected::NoChild)?;
    let is_gone = tables.process(traced.pid).is_none();
    expect(is_gone, "a collected zombie is there")
}

/// Checks what the debugger reads of the LWP that has stopped.
fn check_reads(alloc: Global, tables: &Tables, traced: &Traced) -> Result<(), TestError> {
    let shown = LwpInfo {
        tid: traced.tid,
        event: Event::Signal,
        flags: StopFlags(0),
        sigmask: SigSet::empty(),
        siglist: SigSet::empty(),
        child: 0,
        code: 0,
    };
    let is_shown = info(tables, traced.pid, traced.tid) == Some(shown);
    expect(is_shown, "a debugger reads something else")?;
    let is_only = lwp_count(tables, traced.pid) == 1;
    expect(is_only, "a process has more LWPs")?;
    let list: NumList = lwp_list(alloc, tables, traced.pid, 8)?;
    let is_whole = list.as_slice() == &[traced.tid.get()][..];
    expect(is_whole, "a process has other LWPs")?;
    let copy = list.copy(alloc)?;
    expect(copy == list, "a copy is another list")
}

/// Checks that the process, resumed, stops by its LWP as shown.
fn check_stops(tables: &mut Tables, traced: &Traced) -> Result<(), TestError>
    requires sound { IsSound tables.old.rows }
{
    let shown = StopInfo {
        sig: Signal::new(5)?,
        flags: StopFlags::PL_FLAG_SCE,
        child: 0,
        code: 20,
    };
    resume_stopped(tables, traced.pid)?;
    stop_by(tables, traced.pid, traced.tid, &shown)?;
    check_stop(tables, traced, &shown)
}

/// Checks that the process, resumed, has the signal that is posted to it.
fn check_signals(tables: &mut Tables, traced: &Traced) -> Result<(), TestError>
    requires sound { IsSound tables.old.rows }
{
    let signal = Signal::new(30)?;
    resume_and_post(tables, traced, signal)?;
    check_pending(tables, traced, signal)
}

/// Checks that the process, detached, runs.
fn check_detached(tables: &mut Tables, traced: &Traced) -> Result<(), TestError>
    requires sound { IsSound tables.old.rows }
{
    detach_stopped(tables, traced.pid)?;
    check_settled(tables, traced.pid)
}

/// What is made of the stop.
#[derive(Clone, Copy, Drop)]
enum Part {
    Read,
    Wait,
    Signal,
    Stop,
    Detach,
    Exit,
}

/// Makes this of the stop, and checks what comes of it.
fn check_part(
    alloc: Global,
    tables: &mut Tables,
    traced: &Traced,
    part: Part,
) -> Result<(), TestError>
    requires sound { IsSound tables.old.rows }
{
    match part {
        Part::Read => check_reads(alloc, tables, traced),
        Part::Wait => check_wait(tables, traced.debugger, -1, Collected::Nothing),
        Part::Signal => check_signals(tables, traced),
        Part::Stop => check_stops(tables, traced),
        Part::Detach => check_detached(tables, traced),
        Part::Exit => check_exit(tables, traced),
    }
}

fn each_part_is_made(alloc: Global) -> Result<(), TestError> {
    let traced = Traced::new()?;
    for part in [
        Part::Read,
        Part::Wait,
        Part::Signal,
        Part::Stop,
        Part::Detach,
        Part::Exit,
    ] {
        let mut tables = tables_after(alloc, REPORTED)?;
        check_part(alloc, &mut tables, &traced, part)?;
    }
    Ok(())
}

/// Checks that the debugger reads no event of an LWP that hasn't stopped.
fn new_lwps_have_no_event(alloc: Global) -> Result<(), TestError> {
    let traced = Traced::new()?;
    let Some(made) = Tid::new(100002) else {
        return Err(TestError::Wrong("a number is lost"));
    };
    let tables = tables_after(alloc, MADE)?;
    let shown = LwpInfo {
        tid: made,
        event: Event::Nothing,
        flags: StopFlags(0),
        sigmask: SigSet::empty(),
        siglist: SigSet::empty(),
        child: 0,
        code: 0,
    };
    let is_shown = info(&tables, traced.pid, made) == Some(shown);
    expect(
        is_shown,
        "a debugger reads an event of an LWP that has none",
    )
}
