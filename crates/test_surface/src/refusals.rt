//! A fork that memory is refused for. It changes nothing, and is made once there is memory.

use pid_blocks::Uid;
use requests::{Act, Host, Reply, Step};
use std::alloc::Global;
use stop_handlers::ByPolicy;
use test_kit::{TestError, expect, follow};
use trace_stop::Settings;
use visibility::{View, user_view};

/// The number of tries of a step while it is refused.
const TRIES: u32 = 30;

pub fn check(rt: &impl Print, alloc: Global) -> Result<(), TestError> {
    a_refused_fork_changes_nothing(alloc)?;
    println!(rt; "a refused step: 1 check passed")?;
    Ok(())
}

/// Process 1000 traces process 1001, whose LWP is in a call of fork(2).
const IN_FORK: &str = "
spawn -> new 1000 100000
1002: spawn -> new 2000 104000
spawn -> new 1001 100001
ptrace 1000 PT_ATTACH 1001 -> ok
wait4 1000 -1 -> status 1001 4479
ptrace 1000 PT_SET_EVENT_MASK 1001 PTRACE_FORK -> ok
ptrace 1000 PT_CONTINUE 1001 -> ok
turn 100001 enter fork -> ok
";

/// Leaves the call, and checks after each refusal that the user sees what it saw before.
fn leave(
    alloc: Global,
    host: &mut Host<ByPolicy>,
    user: Uid,
    before: &View,
) -> Result<Reply, TestError> {
    for _ in 0..TRIES {
        let act = Act::Leave;
        let reply = host.step(alloc, user, Step::Turn { tid: 100001, act });
        if !reply.is_memory() {
            return Ok(reply);
        }
        let is_same = user_view(alloc, host, user)? == *before;
        expect(is_same, "a refused step changes what a user sees")?;
    }
    Err(TestError::Memory)
}

fn a_refused_fork_changes_nothing(alloc: Global) -> Result<(), TestError> {
    let user = Uid::new(1001)?;
    let mut host = Host::<ByPolicy>::new(alloc, Settings::standard())?;
    follow(alloc, &mut host, IN_FORK)?;
    let before = user_view(alloc, &host, user)?;
    let reply = leave(alloc, &mut host, user, &before)?;
    let found = format!(in alloc; "{reply}")?;
    let is_stop = found.as_str() == "stopped 100001 5 flags=PL_FLAG_SCX+PL_FLAG_FORKED";
    expect(is_stop, "a fork has another stop")?;
    follow(alloc, &mut host, FORKED)
}

/// The stops of the process and of its child.
const FORKED: &str = "
wait4 1000 -1 -> status 1001 1407
ptrace 1000 PT_LWPINFO 1001 -> info 100001 SIGNAL flags=PL_FLAG_SCX+PL_FLAG_FORKED mask=none pending=none child=1002 code=2
wait4 1000 -1 -> status 1002 4479
";
