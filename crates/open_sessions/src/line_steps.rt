//! The steps that a line can be.
ghost use Rattle.std.specs.Prelude.{◌<◌, ◌≤◌, ◌^◌, length, IsTrue};
ghost use Rattle.open_sessions.specs.StepLines.{AllRules, HasLine, HasNames, HasPass, HaveNames, IsAct, IsOptional, IsRule};

use event_masks::Call;
use signals::{SigSet, Signal};
use step_types::{Act, PlainStep, Request, Step};
use stop_handlers::{Decision, Policy, Rule};

/// The signal of a rule is 1 to 31.
fn read_signal(signal: Option<Signal>)
    ensures { IsOptional signal }
{
    if let Some(signal) = signal {
        let _number = signal.number();
    }
}

/// A signal that is passed on is 0 to 31.
fn read_pass(decision: Decision)
    ensures { HasPass decision }
{
    match decision {
        Decision::Continue(pass) => {
            let _number = pass.number();
        }
        Decision::Detach(pass) => {
            let _number = pass.number();
        }
        Decision::Decline | Decision::Leave | Decision::Kill => {}
    }
}

/// Tests whether the flags of a rule have names.
fn is_named(rule: &Rule) -> bool
    ensures rule { IsTrue result → IsRule rule.now }
    ensures named { rule.now.flags.0 < 512 → IsTrue result }
{
    read_signal(rule.signal);
    read_pass(rule.decision);
    rule.flags.0 < 512
}

/// A policy has at most 16 rules.
fn read_policy(policy: Policy)
    ensures { length policy ≤ 16 }
{
    let _rules = policy.rules();
}

/// Tests whether the flags of each rule have names.
fn are_named(rules: &[Rule]) -> bool
    ensures rules { IsTrue result → AllRules rules.now }
    ensures named { HaveNames rules.now → IsTrue result }
{
    match rules {
        [] => true,
        [rule, rest @ ..] => is_named(rule) && are_named(rest),
    }
}

fn read_set(set: SigSet)
    ensures { set < 2 ^ 31 }
{
    let _is_empty = set.is_empty();
}

/// The numbers of an act are those of its types.
fn read_act(act: &Act)
    ensures { IsAct act.now }
{
    match act {
        Act::Raise(signal) => {
            let _signal = *signal;
        }
        Act::Block(set) => read_set(*set),
        Act::Enter(Call::Exit(code)) => {
            let _code = *code;
        }
        Act::Enter(Call::Other(code)) => {
            let _code = *code;
        }
        Act::Enter(_) | Act::Compute | Act::Leave => {}
    }
}

/// Tests whether the bits of the step have names, so that a line can be the step.
pub(crate) fn has_line(step: &PlainStep) -> bool
    ensures line { IsTrue result → HasLine step.now }
    ensures named { HasNames step.now → IsTrue result }
{
    match *step {
        Step::Spawn => true,
        Step::List { caller: _caller } => true,
        Step::Handle { caller: _caller } => true,
        Step::Sigaction {
            caller: _caller,
            sig: _sig,
            disposition: _,
        } => true,
        Step::Kill {
            caller: _caller,
            which: _which,
            sig: _sig,
        } => true,
        Step::Wait4 {
            caller: _caller,
            which: _which,
            options: _,
        } => true,
        Step::Install {
            caller: _caller,
            handler,
        } => {
            read_policy(handler);
            are_named(handler.rules())
        }
        Step::Ptrace {
            caller: _caller,
            request: Request::SetEventMask,
            target: _target,
            arg,
        } => arg < 64,
        Step::Ptrace {
            caller: _caller,
            request: _,
            target: _target,
            arg: _arg,
        } => true,
        Step::Turn { tid: _tid, act } => {
            read_act(&act);
            true
        }
    }
}
