//! Each kind of step, request, act and reply, of one user on one host.

use event_masks::{Call, StopFlags};
use pid_blocks::Uid;
use requests::{Act, Host, PlainStep, Reply, Request, Step};
use signals::{Disposition, Pass, SigSet, Signal};
use std::alloc::Global;
use stop_handlers::{ByPolicy, Decision, Policy, Rule};
use test_kit::{Row, TestError, expect, rows_of, step_in};
use trace_stop::Settings;
use wait4::Options;

pub fn check(rt: &impl Print, alloc: Global) -> Result<(), TestError> {
    every_step_is_answered(alloc)?;
    every_act_is_made(alloc)?;
    every_request_needs_a_target(alloc)?;
    every_reply_has_its_word(alloc)?;
    println!(rt; "steps and replies: 4 checks passed")?;
    Ok(())
}

/// Returns the word with which the line of the reply begins.
fn word_of(reply: &Reply) -> &'static str {
    match reply {
        Reply::Done => "ok",
        Reply::New { pid: _, tid: _ } => "new",
        Reply::Number(_) => "number",
        Reply::Status { pid: _, status: _ } => "status",
        Reply::Nothing => "nothing",
        Reply::Info(_) => "info",
        Reply::Lwps(_) => "lwps",
        Reply::Pids(_) => "pids",
        Reply::Mask(_) => "mask",
        Reply::Handled {
            pid: _,
            status: _,
            view: _,
            index: _,
            decision: _,
        } => "handled",
        Reply::Stopped {
            tid: _,
            sig: _,
            flags: _,
        } => "stopped",
        Reply::Caught(_) => "caught",
        Reply::Ended(_) => "ended",
        Reply::Held => "held",
        Reply::Errno(_) => "error",
    }
}

/// Makes the step of user 1001, and checks the reply.
fn make(
    alloc: Global,
    host: &mut Host<ByPolicy>,
    step: &PlainStep,
    wanted: &str,
) -> Result<(), TestError> {
    let given = step.by_policy();
    expect(given.plain() == *step, "a plain step is another one")?;
    let reply = host.step(alloc, Uid::new(1001)?, given);
    let found = format!(in alloc; "{reply}")?;
    expect(found.as_str() == wanted, "a step has another reply")
}

/// Returns a policy that continues at the entry of a call.
fn policy() -> Result<Policy, TestError> {
    let rule = Rule {
        signal: Some(Signal::new(5)?),
        flags: StopFlags::PL_FLAG_SCE,
        decision: Decision::Continue(Pass::new(0)?),
    };
    Ok(Policy::new(&[rule])?)
}

/// Steps that ask about processes and signals.
fn ask(alloc: Global, host: &mut Host<ByPolicy>) -> Result<(), TestError> {
    let (caller, which, sig) = (1000, 1000, 0);
    make(alloc, host, &Step::Spawn, "new 1000 100000")?;
    make(alloc, host, &Step::List { caller }, "pids 1000")?;
    let disposition = Disposition::Catch;
    let catch = Step::Sigaction {
        caller,
        sig: 15,
        disposition,
    };
    make(alloc, host, &catch, "ok")?;
    make(alloc, host, &Step::Kill { caller, which, sig }, "ok")
}

/// Steps of a debugger that traces nothing.
fn debug(alloc: Global, host: &mut Host<ByPolicy>) -> Result<(), TestError> {
    let caller = 1000;
    let options = Options {
        untraced: true,
        continued: true,
    };
    let wait = Step::Wait4 {
        caller,
        which: -1,
        options,
    };
    make(alloc, host, &wait, "error ECHILD 10")?;
    let handler = policy()?;
    make(alloc, host, &Step::Install { caller, handler }, "ok")?;
    make(alloc, host, &Step::Handle { caller }, "error ECHILD 10")
}

/// Checks what the host itself shows.
fn check_host(host: &Host<ByPolicy>) -> Result<(), TestError> {
    let user = Uid::new(1001)?;
    expect(
        host.settings() == Settings::standard(),
        "a host has other settings",
    )?;
    expect(
        host.tables().process_count(user) == 1,
        "a host has other rows",
    )?;
    let Some((debugger, kept)) = host.policy(user, 0) else {
        return Err(TestError::Wrong("a policy is gone"));
    };
    let is_own = debugger.get() == 1000 && kept.is_same(&policy()?);
    expect(is_own, "a host has another policy")?;
    expect(host.policy(user, 1).is_none(), "a host has a policy more")
}

fn every_step_is_answered(alloc: Global) -> Result<(), TestError> {
    let mut host = Host::<ByPolicy>::new(alloc, Settings::standard())?;
    ask(alloc, &mut host)?;
    debug(alloc, &mut host)?;
    check_host(&host)
}

fn every_act_is_made(alloc: Global) -> Result<(), TestError> {
    let mut host = Host::<ByPolicy>::new(alloc, Settings::standard())?;
    make(alloc, &mut host, &Step::Spawn, "new 1000 100000")?;
    let usr1 = SigSet::empty().with(Signal::new(30)?);
    for act in [
        Act::Compute,
        Act::Block(usr1),
        Act::Raise(30),
        Act::Enter(Call::Other(20)),
        Act::Leave,
    ] {
        let turn = Step::Turn { tid: 100000, act };
        make(alloc, &mut host, &turn, "ok")?;
    }
    Ok(())
}

/// Makes the request of process 1000 about an unused number.
fn request_nobody(
    alloc: Global,
    host: &mut Host<ByPolicy>,
    request: Request,
    wanted: &str,
) -> Result<(), TestError> {
    let step = Step::Ptrace {
        caller: 1000,
        request,
        target: 1500,
        arg: 0,
    };
    make(alloc, host, &step, wanted)
}

fn every_request_needs_a_target(alloc: Global) -> Result<(), TestError> {
    let mut host = Host::<ByPolicy>::new(alloc, Settings::standard())?;
    make(alloc, &mut host, &Step::Spawn, "new 1000 100000")?;
    request_nobody(alloc, &mut host, Request::TraceMe, "error EPERM 1")?;
    for request in [
        Request::Attach,
        Request::Continue,
        Request::Step,
        Request::Suspend,
        Request::Resume,
        Request::Detach,
        Request::Kill,
        Request::SetEventMask,
        Request::GetEventMask,
        Request::LwpInfo,
        Request::GetNumLwps,
        Request::GetLwpList,
        Request::ToSce,
        Request::ToScx,
        Request::Syscall,
        Request::FollowFork,
        Request::LwpEvents,
    ] {
        request_nobody(alloc, &mut host, request, "error ESRCH 3")?;
    }
    Ok(())
}

/// A session with a reply of each kind.
const EACH_REPLY: &str = "
spawn -> new 1000 100000
spawn -> new 1001 100001
list 1000 -> pids 1000 1001
sigaction 1001 15 catch -> ok
kill 1000 1001 15 -> ok
turn 100001 compute -> caught 15
ptrace 1000 PT_CONTINUE 1001 -> error EPERM 1
ptrace 1000 PT_ATTACH 1001 -> ok
turn 100001 compute -> held
wait4 1000 -1 -> status 1001 4479
wait4 1000 -1 -> nothing
ptrace 1000 PT_GET_EVENT_MASK 1001 -> mask PTRACE_EXEC
ptrace 1000 PT_GETNUMLWPS 1001 -> number 1
ptrace 1000 PT_GETLWPLIST 1001 8 -> lwps 100001
ptrace 1000 PT_LWPINFO 1001 -> info 100001 SIGNAL flags=none mask=none pending=none child=0 code=0
install 1000 -> ok
ptrace 1000 PT_TO_SCE 1001 -> ok
turn 100001 enter other 20 -> stopped 100001 5 flags=PL_FLAG_SCE
handle 1000 -> handled 1001 1407 at 100001 signal=5 flags=PL_FLAG_SCE child=0 code=20 by 0 continue 0
turn 100001 leave -> ok
turn 100001 raise 9 -> ended 9
";

/// Makes the step of the line, and checks the reply and its first word.
fn follow_line(
    alloc: Global,
    host: &mut Host<ByPolicy>,
    line: &Row<'_>,
    policy: &Policy,
) -> Result<(), TestError> {
    let (user, step) = step_in(alloc, line.given, Some(policy))?;
    let reply = host.step(alloc, user, step.by_policy());
    line.check(alloc, &reply)?;
    let word = line.wanted.split_whitespace().next();
    expect(word == Some(word_of(&reply)), "a reply has another word")
}

fn every_reply_has_its_word(alloc: Global) -> Result<(), TestError> {
    let policy = policy()?;
    let mut host = Host::<ByPolicy>::new(alloc, Settings::standard())?;
    for line in rows_of(alloc, EACH_REPLY)?.iter() {
        follow_line(alloc, &mut host, line, &policy)?;
    }
    Ok(())
}
