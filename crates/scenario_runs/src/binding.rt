//! From the steps of a scenario to a host's steps with handlers.
ghost use Rattle.std.specs.Prelude.{⊤, ◌≡◌, ◌≢◌, ◌≤◌, ◌↔◌, ◌⊎◌, length, map, IsTrue, IfOk, IfErr, IsErrOf};
ghost use Rattle.std.specs.Vec.Iter.{into_iter_items};
ghost use Rattle.stop_handlers.specs.Decide.{decide};
ghost use Rattle.stop_handlers.specs.Handlers.{MakesObeying};
ghost use Rattle.scenario_text.specs.Plan.{asked, max_steps, policies_in};
ghost use Rattle.scenario_runs.specs.Runs.{IsBound};
ghost use Rattle.scenario_runs.specs.declared.running.RunFault.TheVariants.{Mismatch, Memory};

use crate::running::RunFault;
use pid_blocks::Uid;
use requests::Step;
use scenario_text::{BareStep, Scenario};
use std::alloc::{AllocError, Global};
use std::vec::IntoIter;
use stop_handlers::{Decider, Decision, Handler, Policy, StopView};

/// Returns the policies of the scenario's installs, in order. An error means out of memory.
pub fn policies(alloc: Global, scenario: &Scenario) -> Result<Vec<Policy>, AllocError>
    ensures { IfOk result (λ v. v.items ≡ policies_in scenario.now.steps) }
{
    let installed = scenario.policies();
    let mut policies = Vec::with_capacity(alloc, installed.len())?;
    for policy in installed {
        policies.push(*policy)?;
    }
    Ok(policies)
}

/// Returns whether the handlers answer by the policies, one for each and in order.
pub fn obey<F: Decider + Send + Drop>(handlers: &[Handler<F>], policies: &[Policy]) -> bool
    ensures { IsTrue result ↔ (handlers.now ≡ policies.now) }
{
    if handlers.len() != policies.len() {
        return false;
    }
    for (i, handler) in handlers.iter().enumerate() {
        if !handler.policy().is_same(&policies[i]) {
            return false;
        }
    }
    true
}

/// Returns the step as a host makes it. An install gets the next handler.
pub fn step_with_handler<F: Decider + Send + Drop>(
    bare_step: &BareStep,
    handlers: &mut IntoIter<Handler<F>>,
) -> Option<Step<Handler<F>>>
    ensures { IsBound bare_step.now (into_iter_items handlers.old) (into_iter_items handlers.new) result }
{
    match bare_step {
        Step::Install { .. } => bare_step.with_handler(Some(handlers.next()?)),
        _ => bare_step.with_handler(None),
    }
}

/// Returns the scenario's steps. Each install gets the next handler.
fn bound<F: Decider + Send + Drop>(
    alloc: Global,
    scenario: &Scenario,
    handlers: Vec<Handler<F>>,
) -> Result<Vec<(Uid, Step<Handler<F>>)>, RunFault>
    requires { handlers.items ≡ policies_in scenario.now.steps }
    ensures ok { IfOk result (λ v. map asked v.items ≡ scenario.now.steps) }
    ensures few { IfOk result (λ v. length v.items ≤ max_steps) }
    ensures err { IfErr result (λ e. e ≡ Memory) }
{
    let bare_steps = scenario.bare_steps();
    let mut steps = Vec::with_capacity(alloc, bare_steps.len())?;
    let mut rest = handlers.into_iter();
    for bare_step in bare_steps {
        let Some(step) = step_with_handler(&bare_step.1, &mut rest) else {
            unreachable!()
        };
        steps.push((bare_step.0, step))?;
    }
    Ok(steps)
}

/// Returns the scenario's steps as a host makes them. Its installs get the handlers, one for each and in order.
///
/// # Errors
///
/// `Mismatch` if the handlers don't answer by the policies of the installs. `Memory` if they do and memory runs
/// out.
pub fn bind<F: Decider + Send + Drop>(
    alloc: Global,
    scenario: &Scenario,
    handlers: Vec<Handler<F>>,
) -> Result<Vec<(Uid, Step<Handler<F>>)>, RunFault>
    ensures ok { IfOk result (λ v. map asked v.items ≡ scenario.now.steps) }
    ensures few { IfOk result (λ v. length v.items ≤ max_steps) }
    ensures mismatch { IsErrOf result Mismatch ↔ (handlers.items ≢ policies_in scenario.now.steps) }
    ensures err { IfErr result (λ e. (e ≡ Mismatch) ⊎ (e ≡ Memory)) }
{
    if !obey(handlers.as_slice(), scenario.policies()) {
        return Err(RunFault::Mismatch);
    }
    bound(alloc, scenario, handlers)
}

/// Returns a handler for each policy, in order, with the decider that `make` gives for the policy. An error means out
/// of memory.
pub fn handlers_from<F: Decider + Send + Drop, M: Fn(Policy) -> F>(
    alloc: Global,
    policies: &[Policy],
    make: M,
) -> Result<Vec<Handler<F>>, AllocError>
    requires callable { M.IsAlwaysCallable make }
    requires obeys { MakesObeying F.can_ask F.gives (M.post make) }
    ensures { IfOk result (λ handlers. handlers.items ≡ policies.now) }
{
    let mut handlers = Vec::with_capacity(alloc, policies.len())?;
    for policy in policies {
        handlers.push(Handler::new(*policy, make(*policy)))?;
    }
    Ok(handlers)
}

/// A decider that answers by a policy elsewhere, for example in a scenario.
#[derive(Drop)]
pub struct ByPolicyRef<'a>(pub &'a Policy);

impl Decider for ByPolicyRef<'_> {
    ghost can_ask = { λ _. ⊤ };

    ghost gives = { λ p view decision. decision ≡ decide p.0.now view };

    fn answer(&self, view: &StopView) -> Decision {
        self.0.decide(view)
    }
}

/// Returns a handler for each policy, in order, which answers by it. A step that installs it is less than half as large
/// as a step with a second copy of the policy. An error means out of memory.
pub fn policy_handlers<'a>(
    alloc: Global,
    policies: &'a [Policy],
) -> Result<Vec<Handler<ByPolicyRef<'a>>>, AllocError>
    ensures { IfOk result (λ handlers. handlers.items ≡ policies.now) }
{
    let mut handlers = Vec::with_capacity(alloc, policies.len())?;
    for policy in policies {
        handlers.push(Handler::new(*policy, ByPolicyRef(policy)))?;
    }
    Ok(handlers)
}
