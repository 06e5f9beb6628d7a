//! Policies, and handlers that answer as a policy decides.

ghost use Rattle.std.specs.Prelude.{◌≡◌, Some};
ghost use Rattle.signals.specs.Table.{SIGTRAP};
ghost use Rattle.stop_handlers.specs.Decide.{decide};
ghost use Rattle.stop_handlers.specs.Handlers.{Obeys, MakesObeying};

use crate::present;
use bitflags::Flags;
use event_masks::StopFlags;
use pid_blocks::{Pid, Tid};
use signals::{Pass, Signal};
use std::io;
use stop_handlers::{
    ByClosure, ByPolicy, Decider, Decision, Handler, Policy, Rule, StopView, TooManyRules,
};

/// Returns a stop of the process 1001 with this signal. `None` if the number isn't a signal's.
fn stop(signal: u32, flags: u32) -> Option<StopView> {
    Some(StopView {
        pid: Pid::new(1001)?,
        tid: Tid::new(100001)?,
        sig: Signal::new(signal).ok()?,
        flags: StopFlags(flags),
        child: 0,
        code: 0,
    })
}

/// Returns a rule for traps with at least these flags.
fn at_trap(flags: StopFlags, decision: Decision) -> Rule
    ensures { result ≡ record { signal = Some SIGTRAP; flags = flags; decision = decision } }
{
    Rule {
        signal: Some(Signal::TRAP),
        flags,
        decision,
    }
}

/// Returns the policy's decision about a stop, and whether its first rule fits it. `None` if there is no such stop.
fn decided(policy: &Policy, signal: u32, flags: u32) -> Option<(Decision, bool)> {
    let view = stop(signal, flags)?;
    let first = policy.rules().first();
    let fits = first.is_some_and(|rule| rule.fits(&view));
    Some((policy.decide(&view), fits))
}

/// Prints decisions: the first fitting rule decides, and a policy without a rule declines.
pub fn policies(rt: &impl Print) -> io::Result<()> {
    let pass = present(Pass::new(0).ok())?;
    let forks = at_trap(StopFlags::PL_FLAG_FORKED, Decision::Continue(pass));
    let traps = at_trap(StopFlags(0), Decision::Kill);
    let detaches = Rule {
        signal: Signal::new(30).ok(),
        ..at_trap(StopFlags(0), Decision::Detach(pass))
    };
    let rules = [forks, detaches, traps];
    let policy = present(Policy::new(&rules).ok())?;
    let empty = present(Policy::new(&[]).ok())?;
    for (signal, flags) in [(5, 10), (5, 6), (30, 10), (17, 10)] {
        let answer = decided(&policy, signal, flags);
        let declined = decided(&empty, signal, flags);
        println!(rt; "stop {signal} {flags}: {answer:?}, by no rule {declined:?}")?;
    }
    println!(rt; "rules are kept: {}", policy.rules() == &rules[..])
}

/// Prints that a policy has at most sixteen rules.
pub fn limits(rt: &impl Print) -> io::Result<()> {
    let rule = at_trap(StopFlags(0), Decision::Kill);
    let full = present(Policy::new(&[rule; 16]).ok())?;
    let fewer = present(Policy::new(&[rule; 15]).ok())?;
    let more = Policy::new(&[rule; 17]) == Err(TooManyRules);
    let count = full.rules().len();
    let same = full.is_same(&full);
    let differs = full.is_same(&fewer);
    println!(rt; "{count} rules, 17 are refused: {more}, same: {same} {differs}")
}

/// Returns the answer of a handler with this decider.
fn asked<F: Decider + Send + Drop>(policy: Policy, decider: F, view: &StopView) -> Decision
    requires askable { F.can_ask decider }
    requires obeys { Obeys (F.gives decider) policy }
    ensures { result ≡ decide policy view.now }
{
    Handler::new(policy, decider).ask(view)
}

/// Returns the answers of the handlers of two policies about two stops, and whether the second keeps its policy.
fn both<F: Decider + Send + Drop, M: Fn(Policy) -> F>(
    first: Policy,
    last: Policy,
    fork: &StopView,
    exec: &StopView,
    make: M,
) -> ([Decision; 3], bool)
    requires callable { M.IsAlwaysCallable make }
    requires obeys { MakesObeying F.can_ask F.gives (M.post make) }
{
    let continuing = Handler::new(first, make(first));
    let killing = Handler::new(last, make(last));
    let answers = [
        continuing.ask(fork),
        continuing.ask(exec),
        killing.ask(fork),
    ];
    (answers, killing.policy().is_same(&last))
}

/// Prints the answers of a closure that decides by cases and calls no policy.
pub fn cases(rt: &impl Print) -> io::Result<()> {
    let none = present(Pass::new(0).ok())?;
    let exec = present(stop(5, 6))?;
    let traps = Rule {
        signal: Some(Signal::TRAP),
        flags: StopFlags(0),
        decision: Decision::Kill,
    };
    let forks = Rule {
        flags: StopFlags::PL_FLAG_FORKED,
        decision: Decision::Continue(none),
        ..traps
    };
    let Ok(policy) = Policy::new(&[forks, traps]) else {
        return println!(rt; "no policy");
    };
    let by_cases = |view: &StopView| {
        if view.sig.number() != 5 {
            Decision::Decline
        } else if view.flags.contains(StopFlags::PL_FLAG_FORKED) {
            Decision::Continue(none)
        } else {
            Decision::Kill
        }
    };
    let answer = asked(policy, ByClosure(by_cases), &exec);
    println!(rt; "by cases: {answer:?}")
}

/// Prints the answers of a closure for each policy.
pub fn closures(rt: &impl Print) -> io::Result<()> {
    let none = present(Pass::new(0).ok())?;
    let fork = present(stop(5, 10))?;
    let exec = present(stop(5, 6))?;
    let forks = at_trap(StopFlags::PL_FLAG_FORKED, Decision::Continue(none));
    let traps = at_trap(StopFlags(0), Decision::Kill);
    let first = present(Policy::new(&[forks]).ok())?;
    let last = present(Policy::new(&[traps]).ok())?;
    let empty = present(Policy::new(&[]).ok())?;
    let by_policy = asked(empty, ByPolicy(empty), &exec);
    let (answers, kept) = both(first, last, &fork, &exec, |policy: Policy| {
        ByClosure(move |view: &StopView| policy.decide(view))
    });
    println!(rt; "handlers: {by_policy:?}, {answers:?}, kept {kept}")
}
