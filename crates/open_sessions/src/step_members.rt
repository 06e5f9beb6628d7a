//! A step as JSON: the keys of docs/FORMAT.md in its order. A key whose value is that of a missing key is left out.
ghost use Rattle.std.specs.Prelude.{◌≡◌, [], ◌∷◌, codes, IfOk, map, Some};
ghost use Rattle.json.specs.Json.{string};
ghost use Rattle.json.specs.Tree.{items_tokens, json_tokens};
ghost use Rattle.json.specs.Value.{items_of};
ghost use Rattle.event_masks.specs.Calls.{call_name, kind_of_call};
ghost use Rattle.event_masks.specs.Names.{event_table, names_of};
ghost use Rattle.pid_blocks.specs.Users.{IsUser};
ghost use Rattle.signals.specs.Dispositions.{disposition_name};
ghost use Rattle.signals.specs.Sets.{members};
ghost use Rattle.step_types.specs.Names.{act_name, kind_of_act};
ghost use Rattle.step_types.specs.Plain.{bare, caller_of};
ghost use Rattle.reply_json.specs.Objects.{member_tokens, natural, numbers_of, object_of, nonzero_member, Puts, strings_of};
ghost use Rattle.open_sessions.specs.StepLines.{act_keys, borrowed, caller_key, code_key, decision_keys, integer, line_of, op_keys, options_key, policy_of, request_keys, rule_keys, rules_key, signal_key, flags_key, step_keys};

use event_masks::{Call, EventMask, StopFlags};
use json::Writer;
use pid_blocks::Uid;
use reply_json::{push_flags, push_nonzero, push_number, push_string};
use signals::{Disposition, SigSet, Signal};
use std::alloc::{AllocError, Global};
use step_types::{Act, Options, PlainStep, Request, Step};
use stop_handlers::{Decision, Policy, Rule};

fn push_mask(out: &mut Writer, target: u32, mask: u32) -> Result<(), AllocError>
    ensures { Puts result out.old out.new (member_tokens ((codes "target", natural target) ∷ (codes "mask", strings_of (names_of event_table mask)) ∷ [])) }
{
    push_number(out, "target", u64::from(target))?;
    push_flags(out, "mask", EventMask(mask))
}

fn push_data(out: &mut Writer, target: u32, value: u32) -> Result<(), AllocError>
    ensures { Puts result out.old out.new (member_tokens ((codes "target", natural target) ∷ nonzero_member (codes "data") value)) }
{
    push_number(out, "target", u64::from(target))?;
    push_nonzero(out, "data", u64::from(value))
}

#[tactic(auto, unfolding(crate::specs::StepLines::request_keys))]
fn push_ptrace(out: &mut Writer, request: Request, target: u32, arg: u32) -> Result<(), AllocError>
    ensures { Puts result out.old out.new (member_tokens (request_keys request target arg)) }
{
    push_string(out, "request", request.name())?;
    match request {
        Request::TraceMe => Ok(()),
        Request::SetEventMask => push_mask(out, target, arg),
        _ => push_data(out, target, arg),
    }
}

fn push_which(out: &mut Writer, which: i64) -> Result<(), AllocError>
    ensures { Puts result out.old out.new (member_tokens ((codes "which", integer which) ∷ [])) }
{
    out.key("which")?;
    out.i64(which)
}

fn push_option(out: &mut Writer, name: &str) -> Result<(), AllocError>
    ensures { Puts result out.old out.new (member_tokens ((codes "options", strings_of (name.now ∷ [])) ∷ [])) }
{
    out.key("options")?;
    out.begin_array()?;
    out.string(name)?;
    out.end_array()
}

/// Writes two names, and the closing bracket after them.
fn push_names(out: &mut Writer, first: &str, second: &str) -> Result<(), AllocError>
    ensures { Puts result out.old out.new (items_tokens (items_of (string first.now ∷ string second.now ∷ []))) }
{
    out.string(first)?;
    out.string(second)?;
    out.end_array()
}

fn push_two_options(out: &mut Writer, first: &str, second: &str) -> Result<(), AllocError>
    ensures { Puts result out.old out.new (member_tokens ((codes "options", strings_of (first.now ∷ second.now ∷ [])) ∷ [])) }
{
    out.key("options")?;
    out.begin_array()?;
    push_names(out, first, second)
}

/// Writes the options that change what a wait reports.
#[tactic(auto, unfolding(crate::specs::StepLines::options_key, crate::specs::StepLines::option_names))]
fn push_options(out: &mut Writer, options: Options) -> Result<(), AllocError>
    ensures { Puts result out.old out.new (member_tokens (options_key options)) }
{
    if options.untraced && options.continued {
        return push_two_options(out, "WUNTRACED", "WCONTINUED");
    }
    if options.untraced {
        return push_option(out, "WUNTRACED");
    }
    if options.continued {
        return push_option(out, "WCONTINUED");
    }
    Ok(())
}

#[tactic(auto, using(reply_json::proofs::TokenLemmas::put_rules))]
fn push_wait4(out: &mut Writer, which: i64, options: Options) -> Result<(), AllocError>
    ensures { Puts result out.old out.new (member_tokens ((codes "which", integer which) ∷ options_key options)) }
{
    push_which(out, which)?;
    push_options(out, options)
}

fn push_kill(out: &mut Writer, which: i64, signal: u32) -> Result<(), AllocError>
    ensures { Puts result out.old out.new (member_tokens ((codes "which", integer which) ∷ (codes "signal", natural signal) ∷ [])) }
{
    push_which(out, which)?;
    push_number(out, "signal", u64::from(signal))
}

fn push_sigaction(out: &mut Writer, signal: u32, action: Disposition) -> Result<(), AllocError>
    ensures { Puts result out.old out.new (member_tokens ((codes "signal", natural signal) ∷ (codes "action", string (disposition_name action)) ∷ [])) }
{
    push_number(out, "signal", u64::from(signal))?;
    push_string(out, "action", action.name())
}

#[tactic(auto, unfolding(crate::specs::StepLines::decision_keys))]
fn push_decision(out: &mut Writer, decision: &Decision) -> Result<(), AllocError>
    ensures { Puts result out.old out.new (member_tokens (decision_keys decision.now)) }
{
    push_string(out, "decision", decision.kind().name())?;
    match decision {
        Decision::Continue(pass) | Decision::Detach(pass) => {
            push_nonzero(out, "pass", u64::from(pass.number()))
        }
        Decision::Decline | Decision::Leave | Decision::Kill => Ok(()),
    }
}

/// Writes the signal of a rule, if it has one.
#[tactic(auto, unfolding(crate::specs::StepLines::signal_key))]
fn push_signal(out: &mut Writer, signal: Option<Signal>) -> Result<(), AllocError>
    ensures { Puts result out.old out.new (member_tokens (signal_key signal)) }
{
    match signal {
        Some(signal) => push_number(out, "signal", u64::from(signal.number())),
        None => Ok(()),
    }
}

/// Writes the flags of a rule, if it has any.
#[tactic(auto, unfolding(crate::specs::StepLines::flags_key))]
fn push_stop_flags(out: &mut Writer, flags: StopFlags) -> Result<(), AllocError>
    ensures { Puts result out.old out.new (member_tokens (flags_key flags.0)) }
{
    if flags.0 == 0 {
        return Ok(());
    }
    push_flags(out, "flags", flags)
}

/// Writes the keys of a rule.
#[tactic(auto, using(reply_json::proofs::TokenLemmas::put_rules), unfolding(crate::specs::StepLines::rule_keys))]
fn push_rule_keys(out: &mut Writer, rule: &Rule) -> Result<(), AllocError>
    ensures { Puts result out.old out.new (member_tokens (rule_keys rule.now)) }
{
    push_signal(out, rule.signal)?;
    push_stop_flags(out, rule.flags)?;
    push_decision(out, &rule.decision)
}

#[tactic(auto, using(reply_json::proofs::TokenLemmas::put_rules))]
fn push_rule(out: &mut Writer, rule: &Rule) -> Result<(), AllocError>
    ensures { Puts result out.old out.new (json_tokens (object_of (rule_keys rule.now))) }
{
    out.begin_object()?;
    push_rule_keys(out, rule)?;
    out.end_object()
}

/// Writes rules, and the closing bracket after them.
fn push_each_rule(out: &mut Writer, rules: &[Rule]) -> Result<(), AllocError>
    ensures { Puts result out.old out.new (items_tokens (items_of (map (λ r. object_of (rule_keys r)) rules.now))) }
{
    for rule in rules {
        push_rule(out, rule)?;
    }
    out.end_array()
}

/// Writes the rules of a policy.
#[tactic(auto, unfolding(crate::specs::StepLines::rules_key))]
fn push_rules(out: &mut Writer, policy: &Policy) -> Result<(), AllocError>
    ensures { Puts result out.old out.new (member_tokens (rules_key (Some policy.now))) }
{
    out.key("rules")?;
    out.begin_array()?;
    push_each_rule(out, policy.rules())
}

/// Writes the policy of an install.
#[tactic(auto, unfolding(crate::specs::StepLines::rules_key))]
fn push_policy(out: &mut Writer, policy: Option<&Policy>) -> Result<(), AllocError>
    ensures { Puts result out.old out.new (member_tokens (rules_key (borrowed policy.entry))) }
{
    match policy {
        Some(policy) => push_rules(out, policy),
        None => Ok(()),
    }
}

/// Writes the code of a call that has one.
#[tactic(auto, unfolding(crate::specs::StepLines::code_key))]
fn push_code(out: &mut Writer, call: &Call) -> Result<(), AllocError>
    ensures { Puts result out.old out.new (member_tokens (code_key call.now)) }
{
    match call {
        Call::Exit(code) => push_number(out, "code", u64::from(*code)),
        Call::Other(code) => push_number(out, "code", u64::from(*code)),
        Call::Fork | Call::Vfork | Call::Exec | Call::ThrNew | Call::ThrExit => Ok(()),
    }
}

#[tactic(auto, using(reply_json::proofs::TokenLemmas::put_rules))]
fn push_call(out: &mut Writer, call: &Call) -> Result<(), AllocError>
    ensures { Puts result out.old out.new (member_tokens ((codes "call", string (call_name (kind_of_call call.now))) ∷ code_key call.now)) }
{
    push_string(out, "call", call.kind().name())?;
    push_code(out, call)
}

/// Writes the numbers of the signals of a set, and the closing bracket after them.
fn push_each_signal(out: &mut Writer, set: SigSet) -> Result<(), AllocError>
    ensures { Puts result out.old out.new (items_tokens (items_of (map (λ n. natural n) (members set)))) }
{
    for signal in set.signals() {
        out.u64(u64::from(signal.number()))?;
    }
    out.end_array()
}

/// Writes a set of signals.
fn push_set(out: &mut Writer, set: SigSet) -> Result<(), AllocError>
    ensures { Puts result out.old out.new (member_tokens ((codes "set", numbers_of (members set)) ∷ [])) }
{
    out.key("set")?;
    out.begin_array()?;
    push_each_signal(out, set)
}

/// Writes what an act carries.
#[tactic(auto, unfolding(crate::specs::StepLines::act_keys))]
fn push_act(out: &mut Writer, act: &Act) -> Result<(), AllocError>
    ensures { Puts result out.old out.new (member_tokens (act_keys act.now)) }
{
    match act {
        Act::Raise(signal) => push_number(out, "signal", u64::from(*signal)),
        Act::Block(set) => push_set(out, *set),
        Act::Enter(call) => push_call(out, call),
        Act::Compute | Act::Leave => Ok(()),
    }
}

#[tactic(auto, using(reply_json::proofs::TokenLemmas::put_rules))]
fn push_turn(out: &mut Writer, lwp: u32, act: &Act) -> Result<(), AllocError>
    ensures { Puts result out.old out.new (member_tokens ((codes "lwp", natural lwp) ∷ (codes "act", string (act_name (kind_of_act act.now))) ∷ act_keys act.now)) }
{
    push_number(out, "lwp", u64::from(lwp))?;
    push_string(out, "act", act.kind().name())?;
    push_act(out, act)
}

/// Writes the number of the process that makes the call. A turn and a spawn have none.
#[tactic(auto, unfolding(crate::specs::StepLines::caller_key))]
fn push_caller<H>(out: &mut Writer, step: &Step<H>) -> Result<(), AllocError>
    ensures { Puts result out.old out.new (member_tokens (caller_key (caller_of (bare step.now)))) }
{
    match step.caller() {
        Some(caller) => push_number(out, "caller", u64::from(caller)),
        None => Ok(()),
    }
}

/// Writes the keys of the step's op after its caller.
#[tactic(auto, unfolding(crate::specs::StepLines::op_keys))]
fn push_keys<H>(out: &mut Writer, step: &Step<H>, policy: Option<&Policy>) -> Result<(), AllocError>
    ensures { Puts result out.old out.new (member_tokens (op_keys step.now (borrowed policy.entry))) }
{
    match step {
        Step::Spawn | Step::List { .. } | Step::Handle { .. } => Ok(()),
        Step::Sigaction {
            sig,
            disposition,
            ..
        } => push_sigaction(out, *sig, *disposition),
        Step::Kill { which, sig, .. } => push_kill(out, *which, *sig),
        Step::Wait4 { which, options, .. } => push_wait4(out, *which, *options),
        Step::Install { .. } => push_policy(out, policy),
        Step::Ptrace {
            request,
            target,
            arg,
            ..
        } => push_ptrace(out, *request, *target, *arg),
        Step::Turn { tid, act } => push_turn(out, *tid, act),
    }
}

/// Writes all keys of the step except its user. `policy` is the one that the step installs.
#[tactic(auto, using(reply_json::proofs::TokenLemmas::put_rules), unfolding(crate::specs::StepLines::step_keys))]
pub fn push_step<H>(
    out: &mut Writer,
    step: &Step<H>,
    policy: Option<&Policy>,
) -> Result<(), AllocError>
    ensures { Puts result out.old out.new (member_tokens (step_keys step.now (borrowed policy.entry))) }
{
    push_string(out, "op", step.kind().name())?;
    push_caller(out, step)?;
    push_keys(out, step, policy)
}

/// Returns the policy that a step installs.
pub fn policy_of(step: &PlainStep) -> Option<&Policy>
    ensures { borrowed result ≡ policy_of step.now }
{
    match step {
        Step::Install { handler, .. } => Some(handler),
        _ => None,
    }
}

/// Writes all keys of a user's step.
#[tactic(auto, using(reply_json::proofs::TokenLemmas::put_rules))]
fn push_all(out: &mut Writer, user: u32, step: &PlainStep) -> Result<(), AllocError>
    ensures { Puts result out.old out.new (member_tokens ((codes "user", natural user) ∷ step_keys step.now (policy_of step.now))) }
{
    push_number(out, "user", u64::from(user))?;
    push_step(out, step, policy_of(step))
}

/// Returns the line of a user's step, without its line feed.
#[tactic(auto, using(reply_json::proofs::TokenLemmas::put_rules))]
pub(crate) fn step_line(alloc: Global, user: Uid, step: &PlainStep) -> Result<Vec<u8>, AllocError>
    ensures line { IfOk result (λ line. line.items ≡ line_of (record { uid = user; step = step.now })) }
    ensures user { IsUser user }
{
    let number = user.get();
    let mut out = Writer::new(Vec::new(alloc));
    out.begin_object()?;
    push_all(&mut out, number, step)?;
    out.end_object()?;
    Ok(out.into_inner())
}
