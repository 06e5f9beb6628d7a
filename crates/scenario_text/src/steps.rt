//! A step of a scenario: its user, its op, and the keys of that op. The policy that an install has stays in the fields.
ghost use Rattle.std.specs.Prelude.{◌≡◌};
ghost use Rattle.scenario_text.specs.Fields.{Gives};
ghost use Rattle.scenario_text.specs.Plan.{with_installed, with_policy};
ghost use Rattle.scenario_text.specs.Steps.{policy_in, rest_of, step_from};
ghost use Rattle.step_types.specs.declared.step.StepKind.TheVariants as ops;

use crate::acts::act_of;
use crate::fields::{Fields, KeyError, only};
use crate::keys::Keys;
use crate::step_list::BareStep;
use crate::tracing::ptrace_of;
use pid_blocks::Uid;
use step_types::{Step, StepKind};

#[tactic(auto, unfolding(crate::specs::Steps::rest_of))]
fn spawn_of(step: &Fields) -> Result<BareStep, KeyError>
    ensures { Gives (with_installed (policy_in step.now.rules)) result (rest_of ops.Spawn step.now) }
{
    only(Keys::USER | Keys::OP, step.keys)?;
    Ok(Step::Spawn)
}

#[tactic(auto, unfolding(crate::specs::Steps::rest_of))]
fn wait4_of(step: &Fields) -> Result<BareStep, KeyError>
    ensures { Gives (with_installed (policy_in step.now.rules)) result (rest_of ops.Wait4 step.now) }
{
    let caller = step.caller?;
    let which = step.which?;
    let options = step.options?;
    only(
        Keys::USER | Keys::OP | Keys::CALLER | Keys::WHICH | Keys::OPTIONS,
        step.keys,
    )?;
    Ok(Step::Wait4 {
        caller,
        which,
        options,
    })
}

#[tactic(auto, unfolding(crate::specs::Steps::rest_of))]
fn kill_of(step: &Fields) -> Result<BareStep, KeyError>
    ensures { Gives (with_installed (policy_in step.now.rules)) result (rest_of ops.Kill step.now) }
{
    let caller = step.caller?;
    let which = step.which?;
    let sig = step.signal?;
    only(
        Keys::USER | Keys::OP | Keys::CALLER | Keys::WHICH | Keys::SIGNAL,
        step.keys,
    )?;
    Ok(Step::Kill { caller, which, sig })
}

#[tactic(auto, unfolding(crate::specs::Steps::rest_of))]
fn sigaction_of(step: &Fields) -> Result<BareStep, KeyError>
    ensures { Gives (with_installed (policy_in step.now.rules)) result (rest_of ops.Sigaction step.now) }
{
    let caller = step.caller?;
    let sig = step.signal?;
    let disposition = step.action?;
    only(
        Keys::USER | Keys::OP | Keys::CALLER | Keys::SIGNAL | Keys::ACTION,
        step.keys,
    )?;
    Ok(Step::Sigaction {
        caller,
        sig,
        disposition,
    })
}

#[tactic(auto, unfolding(crate::specs::Steps::rest_of))]
fn list_of(step: &Fields) -> Result<BareStep, KeyError>
    ensures { Gives (with_installed (policy_in step.now.rules)) result (rest_of ops.List step.now) }
{
    let caller = step.caller?;
    only(Keys::USER | Keys::OP | Keys::CALLER, step.keys)?;
    Ok(Step::List { caller })
}

#[tactic(auto, unfolding(crate::specs::Steps::rest_of))]
fn install_of(step: &Fields) -> Result<BareStep, KeyError>
    ensures { Gives (with_installed (policy_in step.now.rules)) result (rest_of ops.Install step.now) }
{
    let caller = step.caller?;
    if let Err(flaw) = step.rules {
        return Err(flaw);
    }
    only(
        Keys::USER | Keys::OP | Keys::CALLER | Keys::RULES,
        step.keys,
    )?;
    Ok(Step::Install {
        caller,
        handler: (),
    })
}

#[tactic(auto, unfolding(crate::specs::Steps::rest_of))]
fn handle_of(step: &Fields) -> Result<BareStep, KeyError>
    ensures { Gives (with_installed (policy_in step.now.rules)) result (rest_of ops.Handle step.now) }
{
    let caller = step.caller?;
    only(Keys::USER | Keys::OP | Keys::CALLER, step.keys)?;
    Ok(Step::Handle { caller })
}

#[tactic(auto, unfolding(crate::specs::Steps::rest_of))]
fn turn_of(step: &Fields) -> Result<BareStep, KeyError>
    ensures { Gives (with_installed (policy_in step.now.rules)) result (rest_of ops.Turn step.now) }
{
    let tid = step.lwp?;
    let act = act_of(step, step.act?)?;
    Ok(Step::Turn { tid, act })
}

/// Returns the step with this op, from the keys of the op.
fn rest_of(step: &Fields, op: StepKind) -> Result<BareStep, KeyError>
    ensures { Gives (with_installed (policy_in step.now.rules)) result (rest_of op step.now) }
{
    match op {
        StepKind::Spawn => spawn_of(step),
        StepKind::Ptrace => ptrace_of(step),
        StepKind::Wait4 => wait4_of(step),
        StepKind::Kill => kill_of(step),
        StepKind::Sigaction => sigaction_of(step),
        StepKind::List => list_of(step),
        StepKind::Install => install_of(step),
        StepKind::Handle => handle_of(step),
        StepKind::Turn => turn_of(step),
    }
}

/// Returns the step with these keys. The error is its first flaw.
#[tactic(auto, unfolding(crate::specs::Steps::step_from))]
pub(crate) fn step_from(step: &Fields) -> Result<(Uid, BareStep), KeyError>
    ensures { Gives (with_policy (policy_in step.now.rules)) result (step_from step.now) }
{
    let user = step.user?;
    let op = step.op?;
    let rest = rest_of(step, op)?;
    Ok((user, rest))
}
