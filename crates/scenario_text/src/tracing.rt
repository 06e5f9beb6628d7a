//! The requests of ptrace(2).
ghost use Rattle.std.specs.Prelude.{◌≡◌};
ghost use Rattle.step_types.specs.declared.Request.TheVariants as ptrace;
ghost use Rattle.scenario_text.specs.Fields.{Gives};
ghost use Rattle.scenario_text.specs.Plan.{with_installed};
ghost use Rattle.scenario_text.specs.Steps.{ptrace_keys, request_of, asked_of, policy_in, rest_of};
ghost use Rattle.step_types.specs.declared.step.StepKind.TheVariants as ops;

use crate::fields::{Fields, KeyError, only};
use crate::keys::Keys;
use crate::step_list::BareStep;
use step_types::{Request, Step};

/// Returns the keys that every ptrace step has.
fn ptrace_keys() -> Keys
    ensures { result ≡ ptrace_keys }
{
    Keys::USER | Keys::OP | Keys::CALLER | Keys::REQUEST
}

fn trace_me_of(step: &Fields, caller: u32) -> Result<BareStep, KeyError>
    ensures { Gives (with_installed (policy_in step.now.rules)) result (asked_of caller ptrace.TraceMe step.now) }
{
    only(ptrace_keys(), step.keys)?;
    Ok(Step::Ptrace {
        caller,
        request: Request::TraceMe,
        target: 0,
        arg: 0,
    })
}

fn set_event_mask_of(step: &Fields, caller: u32) -> Result<BareStep, KeyError>
    ensures { Gives (with_installed (policy_in step.now.rules)) result (asked_of caller ptrace.SetEventMask step.now) }
{
    let target = step.target?;
    let mask = step.mask?;
    only(ptrace_keys() | Keys::TARGET | Keys::MASK, step.keys)?;
    Ok(Step::Ptrace {
        caller,
        request: Request::SetEventMask,
        target,
        arg: mask.0,
    })
}

/// Returns a request with a target and data.
#[tactic(auto, unfolding(crate::specs::Steps::request_of))]
fn request_of(step: &Fields, caller: u32, request: Request) -> Result<BareStep, KeyError>
    ensures { Gives (with_installed (policy_in step.now.rules)) result (request_of caller request step.now) }
{
    let target = step.target?;
    let arg = step.data?;
    only(ptrace_keys() | Keys::TARGET | Keys::DATA, step.keys)?;
    Ok(Step::Ptrace {
        caller,
        request,
        target,
        arg,
    })
}

fn asked_of(step: &Fields, caller: u32, request: Request) -> Result<BareStep, KeyError>
    ensures { Gives (with_installed (policy_in step.now.rules)) result (asked_of caller request step.now) }
{
    match request {
        Request::TraceMe => trace_me_of(step, caller),
        Request::SetEventMask => set_event_mask_of(step, caller),
        _ => request_of(step, caller, request),
    }
}

/// Returns a ptrace step, from the keys of its request.
#[tactic(auto, unfolding(crate::specs::Steps::rest_of))]
pub(crate) fn ptrace_of(step: &Fields) -> Result<BareStep, KeyError>
    ensures { Gives (with_installed (policy_in step.now.rules)) result (rest_of ops.Ptrace step.now) }
{
    let caller = step.caller?;
    let request = step.request?;
    asked_of(step, caller, request)
}
