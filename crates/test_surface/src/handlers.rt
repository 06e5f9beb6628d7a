//! Stop handlers in a host: a closure that decides by cases of its own, and the policies that a host shows.

ghost use Rattle.std.specs.Prelude.{◌≡◌};
ghost use Rattle.stop_handlers.specs.Handlers.{Obeys};

use event_masks::StopFlags;
use pid_blocks::{Errno, Uid};
use requests::{Host, PlainStep, Reply, Step};
use signals::{Pass, Signal};
use std::alloc::Global;
use stop_handlers::{ByClosure, ByPolicy, Decider, Decision, Handler, Policy, Rule, StopView};
use test_kit::{FORK_STOPS, TestError, expect, follow};
use trace_stop::Settings;

pub fn check(rt: &impl Print, alloc: Global) -> Result<(), TestError> {
    a_closure_decides_by_cases(alloc)?;
    a_plain_install_has_the_handlers_policy()?;
    a_host_shows_each_policy(alloc)?;
    println!(rt; "handlers: 3 checks passed")?;
    Ok(())
}

/// Process 1000 has attached to process 1001, and a wait has reported the stop.
const REPORTED: &str = "
spawn -> new 1000 100000
1002: spawn -> new 2000 104000
spawn -> new 1001 100001
ptrace 1000 PT_ATTACH 1001 -> ok
wait4 1000 -1 -> status 1001 4479
";

/// Process 1000 ends.
const ENDED: &str = "
turn 100000 enter exit 0 -> ok
turn 100000 leave -> ended 0
";

/// Installs a handler of the first user's process 1000, and checks the reply.
fn install<F: Decider + Send + Drop>(
    alloc: Global,
    host: &mut Host<F>,
    handler: Handler<F>,
    wanted: Reply,
) -> Result<(), TestError> {
    let reply = host.step(alloc, Uid::new(1001)?, Step::install(1000, handler));
    expect(reply == wanted, "an install has another reply")
}

/// Checks how the handler, the only one of 1000, handles the stops of a fork, on a host of its own.
fn follow_fork<F: Decider + Send + Drop>(
    alloc: Global,
    handler: Handler<F>,
) -> Result<(), TestError> {
    let mut host = Host::<F>::new(alloc, Settings::standard())?;
    follow(alloc, &mut host, REPORTED)?;
    install(alloc, &mut host, handler, Reply::Done)?;
    follow(alloc, &mut host, FORK_STOPS)
}

/// Checks a decider that obeys the policy, on a host of its own.
fn decide_by<F: Decider + Send + Drop>(
    alloc: Global,
    policy: Policy,
    decider: F,
) -> Result<(), TestError>
    requires askable { F.can_ask decider }
    requires obeys { Obeys (F.gives decider) policy }
{
    follow_fork(alloc, Handler::new(policy, decider))
}

/// A closure that decides by cases and calls no policy.
fn a_closure_decides_by_cases(alloc: Global) -> Result<(), TestError> {
    let none = Pass::new(0)?;
    let forks = Rule {
        signal: Some(Signal::new(5)?),
        flags: StopFlags::PL_FLAG_FORKED,
        decision: Decision::Continue(none),
    };
    let usr = Rule {
        signal: Some(Signal::new(30)?),
        flags: StopFlags(0),
        decision: Decision::Detach(none),
    };
    let traps = Rule {
        signal: Some(Signal::new(5)?),
        flags: StopFlags(0),
        decision: Decision::Kill,
    };
    let policy = Policy::new(&[forks, usr, traps])?;
    let by_cases = |view: &StopView| {
        if view.sig.number() == 30 {
            Decision::Detach(none)
        } else if view.sig.number() != 5 {
            Decision::Decline
        } else if view.flags.shows(StopFlags::PL_FLAG_FORKED) {
            Decision::Continue(none)
        } else {
            Decision::Kill
        }
    };
    decide_by(alloc, policy, ByClosure(by_cases))
}

fn a_plain_install_has_the_handlers_policy() -> Result<(), TestError> {
    let policy = Policy::new(&[])?;
    let step = Step::install(1000, by_policy(policy));
    let plain = PlainStep::install(1000, policy);
    expect(step.plain() == plain, "a plain install is another one")?;
    let again = plain.by_policy().plain();
    expect(again == plain, "an install by its policy is another one")
}

/// Returns a handler that answers by the policy.
fn by_policy(policy: Policy) -> Handler<ByPolicy>
    ensures { result ≡ policy }
{
    Handler::new(policy, ByPolicy(policy))
}

/// Returns the policy of one rule, for a signal with any flags.
fn one_rule(signal: u32, decision: Decision) -> Result<Policy, TestError> {
    Ok(Policy::new(&[Rule {
        signal: Some(Signal::new(signal)?),
        flags: StopFlags(0),
        decision,
    }])?)
}

/// Checks that the handler at this place was installed by 1000 and has the policy.
fn check_at(
    host: &Host<ByPolicy>,
    user: Uid,
    place: usize,
    wanted: &Policy,
) -> Result<(), TestError> {
    match host.policy(user, place) {
        Some((debugger, policy)) => {
            let is_own = debugger.get() == 1000 && policy.is_same(wanted);
            expect(is_own, "a host has another policy")
        }
        None => Err(TestError::Wrong("a policy is gone")),
    }
}

/// Installs as many handlers as a user may have: the first one kills, the second leaves, the others decline.
fn install_64(alloc: Global, host: &mut Host<ByPolicy>) -> Result<(), TestError> {
    let (kills, leaves) = (one_rule(5, Decision::Kill)?, one_rule(17, Decision::Leave)?);
    install(alloc, host, by_policy(kills), Reply::Done)?;
    install(alloc, host, by_policy(leaves), Reply::Done)?;
    let declines = Policy::new(&[])?;
    for _ in 2..64 {
        install(alloc, host, by_policy(declines), Reply::Done)?;
    }
    let refused = Reply::Errno(Errno::EAGAIN);
    install(alloc, host, by_policy(declines), refused)
}

/// A host shows a debugger's policies in the order of their installs, and none once it has ended.
fn a_host_shows_each_policy(alloc: Global) -> Result<(), TestError> {
    let user = Uid::new(1001)?;
    let mut host = Host::<ByPolicy>::new(alloc, Settings::standard())?;
    follow(alloc, &mut host, "spawn -> new 1000 100000")?;
    install_64(alloc, &mut host)?;
    check_at(&host, user, 0, &one_rule(5, Decision::Kill)?)?;
    check_at(&host, user, 1, &one_rule(17, Decision::Leave)?)?;
    check_at(&host, user, 63, &Policy::new(&[])?)?;
    let is_whole = host.policy(user, 64).is_none();
    expect(is_whole, "a host has a policy more")?;
    follow(alloc, &mut host, ENDED)?;
    let is_gone = host.policy(user, 0).is_none();
    expect(is_gone, "a policy outlives its debugger")
}
