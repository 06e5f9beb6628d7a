//! Requests of ptrace(2).

ghost use Rattle.std.specs.Prelude.{◌≡◌, ◌==◌, ◌<◌, Some, IfSome, IsSome, IsSomeAnd, true, false, is_some, leb, not, if◌then◌else◌};
ghost use Rattle.std.specs.Int.RustNames.{bit_or};
ghost use Rattle.pid_blocks.specs.declared.Errno.TheVariants as errno;
ghost use Rattle.event_masks.specs.Exits.{all_events};
ghost use Rattle.lwp_table.specs.Lwps.{lwp_of};
ghost use Rattle.proc_table.specs.Kept.{TableInvariant};
ghost use Rattle.proc_table.specs.Processes.{process_of, reporting};
ghost use Rattle.signals.specs.Table.{SIGKILL};
ghost use Rattle.trace_rows.specs.Detach.{signal_alone};
ghost use Rattle.trace_rows.specs.Stop.{resume, detach};
ghost use Rattle.trace_rows.specs.Facts.{IsSound};
ghost use Rattle.lwpinfo.specs.Info.{info, lwp_list};
ghost use Rattle.step_types.specs.declared.Reply.TheVariants as reply;
ghost use Rattle.requests.specs.Outcome.{Gives, answers, refuses};
ghost use Rattle.requests.specs.Ptrace.{ptrace, is_trace_me, is_attach, target_of, suspend, set_mask, resumes, switched, shows_info, command, with_signal};
ghost use Rattle.requests.specs.Callers.{IsCaller};
ghost use Rattle.requests.specs.Memory.{Attempts, lists};

use crate::attach::{attach, trace_me};
use crate::{Reply, Request};
use event_masks::EventMask;
use lwp_table::LwpData;
use lwpinfo::{info, lwp_count, lwp_list};
use pid_blocks::{Errno, Pid, Tid, Uid};
use proc_table::{ProcData, State, Tables};
use signals::Pass;
use std::alloc::Global;
use trace_rows::Stepping::{Nobody, Only};
use trace_rows::{Resumption, Settings, Stepping};
use trace_stop::{detach_process, resume_process};

/// Makes a request of ptrace(2) by a process that runs. A target up to 99999 names a process, and its LWP that reports
/// a stop. A greater one names an LWP, and its process. Refused as the manual page says, and with ENOMEM if memory runs
/// out for the list of PT_GETLWPLIST. A refused request changes nothing.
#[tactic(auto, using(std::proofs::lemmas::Bool::Decides::nat_tests, crate::proofs::SoundAfterRequest::target_within, crate::proofs::SoundAfterRequest::asks_tracee))]
pub fn ptrace(
    tables: &mut Tables,
    alloc: Global,
    settings: Settings,
    user: Uid,
    caller: &ProcData,
    request: Request,
    target: u32,
    arg: u32,
) -> Reply
    requires sound { IsSound tables.old.rows }
    requires caller { IsCaller user caller.now tables.old.rows }
    ensures { let outcome = ptrace settings user caller.now request target arg tables.old.rows in
        Attempts (lists request) outcome tables.old.rows tables.new.rows result }
{
    if is_trace_me(request) {
        return trace_me(tables, caller);
    }
    let Some(process) = target_of(tables, user, target) else {
        return Reply::Errno(Errno::ESRCH);
    };
    if !process.is_live() {
        return Reply::Errno(Errno::ESRCH);
    }
    if is_attach(request) {
        return attach(tables, caller, &process);
    }
    if process.tracer.is_none() {
        return Reply::Errno(Errno::EPERM);
    }
    if !process.is_traced_by(caller.pid) {
        return Reply::Errno(Errno::EBUSY);
    }
    let Some(reporting) = process.reported_stop() else {
        return Reply::Errno(Errno::EBUSY);
    };
    let lwp = named_lwp(target, reporting);
    command(tables, alloc, settings, request, arg, lwp, &process)
}

fn is_trace_me(request: Request) -> bool
    ensures { result ≡ is_trace_me request }
{
    matches!(request, Request::TraceMe)
}

fn is_attach(request: Request) -> bool
    ensures { result ≡ is_attach request }
{
    matches!(request, Request::Attach)
}

/// Returns the user's process that the target names.
fn target_of(tables: &Tables, user: Uid, target: u32) -> Option<ProcData>
    ensures process { result ≡ target_of user target tables.now.rows }
    ensures row { IfSome result (λ p. process_of p.pid tables.now.rows.processes ≡ Some p) }
    ensures kept { TableInvariant tables.now.rows }
{
    tables.assert_invariant();
    if target >= pid_blocks::FIRST_TID {
        return match tables.find_seen(user, target) {
            Some(pid) => tables.process(pid),
            None => None,
        };
    }
    // all processes in a user's block are the user's
    if pid_blocks::in_pid_block(user, target) {
        return tables.process_by_number(target);
    }
    None
}

/// Returns the LWP that the target names: the one with this number, or for a process the LWP that reports its stop.
fn named_lwp(target: u32, reporting: Tid) -> Tid
    requires lwp { leb target 99999 ≡ false → target < 356000 }
    ensures { result ≡ (if leb target 99999 then reporting else target) }
{
    match Tid::new(target) {
        Some(lwp) => lwp,
        None => reporting,
    }
}

/// Makes a request of the tracer about an LWP of its stopped tracee. Refused with EINVAL if `arg` is wrong, and with
/// ENOMEM if memory runs out for a list of LWPs.
#[inline(always)]
#[tactic(auto, using(std::proofs::lemmas::Bool::Decides::nat_tests, crate::proofs::StoppedTracee::few_own, crate::proofs::StoppedTracee::given, crate::proofs::StoppedTracee::gives_as))]
fn command(
    tables: &mut Tables,
    alloc: Global,
    settings: Settings,
    request: Request,
    arg: u32,
    lwp: Tid,
    process: &ProcData,
) -> Reply
    requires sound { IsSound tables.old.rows }
    requires at { process_of process.now.pid tables.old.rows.processes ≡ Some process.now }
    requires stopped { is_some (reporting process.now) ≡ true }
    requires own { IsSomeAnd (lwp_of lwp tables.old.rows.lwps) (λ l. l.pid ≡ process.now.pid) }
    ensures { let outcome = command settings request arg lwp process.now tables.old.rows in
        Attempts (lists request) outcome tables.old.rows tables.new.rows result }
{
    let pid = process.pid;
    let mask = process.mask;
    let none = EventMask(0);
    let entry = EventMask::PTRACE_SCE;
    let exit = EventMask::PTRACE_SCX;
    match request {
        Request::TraceMe => Reply::Errno(Errno::EINVAL),
        Request::Attach => Reply::Errno(Errno::EBUSY),
        Request::Continue => resume_with(tables, settings, process, none, Nobody, arg),
        Request::ToSce => resume_with(tables, settings, process, entry, Nobody, arg),
        Request::ToScx => resume_with(tables, settings, process, exit, Nobody, arg),
        Request::Syscall => {
            let both = entry.with(exit);
            resume_with(tables, settings, process, both, Nobody, arg)
        }
        Request::Step => resume_with(tables, settings, process, none, Only(lwp), arg),
        Request::Suspend => suspend(tables, lwp, true),
        Request::Resume => suspend(tables, lwp, false),
        Request::Detach => detach_with(tables, settings, process, arg),
        Request::Kill => kill(tables, settings, process),
        Request::SetEventMask => set_events(tables, process, arg),
        Request::FollowFork => switch(tables, process, EventMask::PTRACE_FORK, arg),
        Request::LwpEvents => switch(tables, process, EventMask::PTRACE_LWP, arg),
        Request::GetEventMask => Reply::Mask(mask),
        Request::LwpInfo => show_lwp(tables, process, lwp),
        Request::GetNumLwps => Reply::Number(lwp_count(tables, pid) as u32),
        Request::GetLwpList => list_lwps(tables, alloc, pid, arg),
    }
}

/// PT_CONTINUE, PT_STEP, PT_TO_SCE, PT_TO_SCX and PT_SYSCALL: resumes the process with these events added to its mask,
/// these LWPs stepping, and a signal or 0. Refused with EINVAL if `arg` is above 31.
fn resume_with(
    tables: &mut Tables,
    settings: Settings,
    process: &ProcData,
    adds: EventMask,
    stepping: Stepping,
    arg: u32,
) -> Reply
    requires sound { IsSound tables.old.rows }
    requires at { process_of process.now.pid tables.old.rows.processes ≡ Some process.now }
    requires stopped { is_some (reporting process.now) ≡ true }
    ensures { Gives (with_signal arg (resumes settings adds stepping arg process.now tables.old.rows)
        tables.old.rows) tables.new.rows result }
{
    let Ok(pass) = Pass::new(arg) else {
        return Reply::Errno(Errno::EINVAL);
    };
    let how = Resumption {
        adds,
        stepping,
        pass,
    };
    resume_process(tables, settings, process, &how);
    Reply::Done
}

/// PT_KILL: resumes the process with SIGKILL, which ends it.
pub fn kill(tables: &mut Tables, settings: Settings, process: &ProcData) -> Reply
    requires sound { IsSound tables.old.rows }
    requires at { process_of process.now.pid tables.old.rows.processes ≡ Some process.now }
    requires stopped { is_some (reporting process.now) ≡ true }
    ensures { Gives (answers reply.Done (resume settings (signal_alone SIGKILL) process.now.pid tables.old.rows))
        tables.new.rows result }
{
    resume_process(
        tables,
        settings,
        process,
        &Resumption::with_signal(Pass::KILL),
    );
    Reply::Done
}

/// PT_SUSPEND and PT_RESUME: sets whether the LWP is suspended.
fn suspend(tables: &mut Tables, lwp: Tid, suspended: bool) -> Reply
    requires there { IsSome (lwp_of lwp tables.old.rows.lwps) }
    ensures { Gives (answers reply.Done (suspend suspended lwp tables.old.rows)) tables.new.rows result }
{
    let Some(row) = tables.lwp(lwp) else {
        return Reply::Done;
    };
    tables.set_lwp(LwpData { suspended, ..row });
    Reply::Done
}

/// PT_DETACH: ends the tracing of the process, and resumes it with a signal or with 0. Refused with EINVAL if
/// `arg` is above 31.
fn detach_with(tables: &mut Tables, settings: Settings, process: &ProcData, arg: u32) -> Reply
    requires sound { IsSound tables.old.rows }
    requires at { process_of process.now.pid tables.old.rows.processes ≡ Some process.now }
    requires stopped { is_some (reporting process.now) ≡ true }
    ensures { Gives (with_signal arg (answers reply.Done
        (detach settings process.now.pid arg tables.old.rows)) tables.old.rows) tables.new.rows result }
{
    let Ok(pass) = Pass::new(arg) else {
        return Reply::Errno(Errno::EINVAL);
    };
    detach_process(tables, settings, process, pass);
    Reply::Done
}

/// PT_SET_EVENT_MASK: sets the event mask of the process. Refused with EINVAL if a bit is not an event's.
fn set_events(tables: &mut Tables, process: &ProcData, bits: u32) -> Reply
    requires at { process_of process.now.pid tables.old.rows.processes ≡ Some process.now }
    ensures { let known = set_mask (λ mask. record { 0 = bits }) process.now.pid tables.old.rows in
        Gives (if not (bit_or bits all_events == all_events)
        then refuses errno.EINVAL tables.old.rows else answers reply.Done known)
        tables.new.rows result }
{
    let Some(mask) = EventMask::known(bits) else {
        return Reply::Errno(Errno::EINVAL);
    };
    set_mask(tables, process, mask);
    Reply::Done
}

/// PT_FOLLOW_FORK and PT_LWP_EVENTS: sets the event in the mask of the process, or for 0 clears it.
#[tactic(auto, using(std::proofs::lemmas::Bool::Decides::nat_tests, crate::proofs::StoppedTracee::set_mask_as))]
fn switch(tables: &mut Tables, process: &ProcData, event: EventMask, on: u32) -> Reply
    requires sound { IsSound tables.old.rows }
    requires at { process_of process.now.pid tables.old.rows.processes ≡ Some process.now }
    ensures { Gives (answers reply.Done (set_mask (switched event on) process.now.pid tables.old.rows))
        tables.new.rows result }
{
    set_mask(tables, process, switched(process.mask, event, on));
    Reply::Done
}

/// Returns the mask with the event, or for 0 without it.
fn switched(mask: EventMask, event: EventMask, on: u32) -> EventMask
    ensures { result ≡ switched event on mask }
{
    if on == 0 {
        mask.without(event)
    } else {
        mask.with(event)
    }
}

/// Sets the event mask of the process.
fn set_mask(tables: &mut Tables, process: &ProcData, mask: EventMask)
    requires at { process_of process.now.pid tables.old.rows.processes ≡ Some process.now }
    ensures rows { tables.new.rows ≡ set_mask (λ old. mask) process.now.pid tables.old.rows }
{
    tables.assert_invariant();
    tables.set_process(ProcData { mask, ..*process });
}

/// PT_LWPINFO.
fn show_lwp(tables: &Tables, process: &ProcData, lwp: Tid) -> Reply
    requires at { process_of process.now.pid tables.now.rows.processes ≡ Some process.now }
    ensures { result ≡ (shows_info (info process.now lwp tables.now.rows) tables.now.rows).reply }
{
    match info(tables, process.pid, lwp) {
        Some(shown) => Reply::Info(shown),
        None => Reply::Errno(Errno::ESRCH),
    }
}

/// PT_GETLWPLIST. Refused with EINVAL if the count is 0, and with ENOMEM if memory runs out.
fn list_lwps(tables: &Tables, alloc: Global, pid: Pid, count: u32) -> Reply
    ensures { let rows = tables.now.rows in
        Attempts true (if count == 0
        then refuses errno.EINVAL rows else answers (reply.Lwps (lwp_list pid count rows)) rows)
        rows rows result }
{
    if count == 0 {
        return Reply::Errno(Errno::EINVAL);
    }
    match lwp_list(alloc, tables, pid, count) {
        Ok(tids) => Reply::Lwps(tids),
        Err(_) => Reply::Errno(Errno::ENOMEM),
    }
}
