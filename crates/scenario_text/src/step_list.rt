//! Lists of users' steps. They keep the installed policies separate.
ghost use Rattle.std.specs.Prelude.{◌≡◌, ◌++◌, ◌∷◌, [], OnOk, OnErr};
ghost use Rattle.step_types.specs.Plain.{with_handler};
ghost use Rattle.scenario_text.specs.Plan.{first, policies_after, policy_before, with_installed};
ghost use Rattle.scenario_text.specs.Steps.{policy_in};

use crate::fields::{KeyError, policy_in};
use pid_blocks::Uid;
use std::alloc::{AllocError, Global};
use std::marker::Model;
use step_types::{PlainStep, Step};
use stop_handlers::Policy;

/// A step without the policy that it installs, if it installs one.
pub type BareStep = Step<()>;

/// Steps of users in order. Few steps install a policy, and a policy is large, so the list keeps the policies separate:
/// one for each install, in order.
#[derive(Drop)]
pub struct StepList {
    bare_steps: Vec<(Uid, BareStep)>,
    policies: Vec<Policy>,
}

impl Model for StepList {
    ghost use Rattle.std.specs.Prelude.{◌≡◌, List};
    ghost use Rattle.step_types.specs.Plain.{UserStep};
    ghost use Rattle.scenario_text.specs.Plan.{with_policies, policies_in};

    ghost Value = { List UserStep };

    ghost view = { λ l. with_policies l.bare_steps.items l.policies.items };

    ghost invariant = { λ l. policies_in (with_policies l.bare_steps.items l.policies.items) ≡ l.policies.items };
}

/// The remaining steps of a list, each with its policy.
#[derive(Drop)]
pub struct Steps<'a> {
    bare_steps: &'a [(Uid, BareStep)],
    policies: &'a [Policy],
}

impl<'a> Model for Steps<'a> {
    ghost use Rattle.std.specs.Prelude.{◌≡◌, ℕ, List, map};
    ghost use Rattle.step_types.specs.Plain.{PlainStep};
    ghost use Rattle.scenario_text.specs.Plan.{with_policies, policies_in, user_and_step};

    ghost Value = { List (ℕ × PlainStep) };

    ghost view = { λ s. map user_and_step (with_policies s.bare_steps.now s.policies.now) };

    ghost invariant = { λ s. policies_in (with_policies s.bare_steps.now s.policies.now) ≡ s.policies.now };
}

impl<'a> Iterator for Steps<'a> {
    type Item = (Uid, PlainStep);

    ghost use Rattle.std.specs.Iterator.{YieldsFirst, item_count};

    ghost next_gives = { YieldsFirst (λ rest. rest) };

    ghost remaining = { item_count (λ rest. rest) };

    fn next(&mut self) -> Option<(Uid, PlainStep)> {
        let (first, bare_steps) = self.bare_steps.split_first()?;
        let Some(step) = step_with_policy(&first.1, self.policies) else {
            unreachable!()
        };
        self.policies = policies_after(&first.1, self.policies);
        self.bare_steps = bare_steps;
        Some((first.0, step))
    }
}

/// Returns the step with the first of the policies, if it installs one. `None` if it does and there is no policy.
fn step_with_policy(bare_step: &BareStep, policies: &[Policy]) -> Option<PlainStep>
    ensures { result ≡ with_handler (first policies.now) bare_step.now }
{
    match policies.split_first() {
        Some((policy, _)) => bare_step.with_handler(Some(*policy)),
        None => bare_step.with_handler(None),
    }
}

/// Returns the policies that remain after the step.
fn policies_after<'a>(bare_step: &BareStep, policies: &'a [Policy]) -> &'a [Policy]
    ensures { result.now ≡ policies_after bare_step.now policies.now }
{
    match (bare_step, policies.split_first()) {
        (Step::Install { .. }, Some((_, others))) => others,
        _ => policies,
    }
}

/// Returns the step without its policy.
#[tactic(auto, using(crate::proofs::WithPoliciesLemmas::handled))]
fn bare_step(step: &PlainStep) -> BareStep
    ensures { result ≡ with_installed tt step.now }
{
    let Some(bare_step) = step.with_handler(Some(())) else {
        unreachable!()
    };
    bare_step
}

/// Returns the step with the policy of the rules, if it installs one.
pub(crate) fn plain_step(bare_step: &BareStep, rules: &Result<Policy, KeyError>) -> PlainStep
    ensures { result ≡ with_installed (policy_in rules.now) bare_step.now }
{
    let policy = match bare_step {
        Step::Install { .. } => Some(policy_in(rules)),
        _ => None,
    };
    let Some(step) = bare_step.with_handler(policy) else {
        unreachable!()
    };
    step
}

/// Adds the policy of the rules. An error means out of memory, and changes nothing. It is apart, so that other steps
/// need no room for a policy.
#[inline(never)]
fn push_policy_in(
    policies: &mut Vec<Policy>,
    rules: &Result<Policy, KeyError>,
) -> Result<(), AllocError>
    ensures ok { OnOk result (policies.new.items ≡ policies.old.items ++ policy_in rules.now ∷ []) }
    ensures err { OnErr result (policies.new.items ≡ policies.old.items) }
{
    policies.push(policy_in(rules))?;
    Ok(())
}

/// Adds the policy of the rules, if the step installs one. An error means out of memory, and changes nothing.
fn push_rules(
    policies: &mut Vec<Policy>,
    bare_step: &BareStep,
    rules: &Result<Policy, KeyError>,
) -> Result<(), AllocError>
    ensures ok { OnOk result (policies.new.items ≡ policies.old.items ++ policy_before (with_installed (policy_in rules.now) bare_step.now) []) }
    ensures err { OnErr result (policies.new.items ≡ policies.old.items) }
{
    if let Step::Install { .. } = bare_step {
        push_policy_in(policies, rules)?;
    }
    Ok(())
}

/// Adds the policy of the step, if it installs one. An error means out of memory, and changes nothing.
fn push_policy(policies: &mut Vec<Policy>, step: &PlainStep) -> Result<(), AllocError>
    ensures ok { OnOk result (policies.new.items ≡ policies.old.items ++ policy_before step.now []) }
    ensures err { OnErr result (policies.new.items ≡ policies.old.items) }
{
    if let Step::Install {
        handler: policy,
        ..
    } = step
    {
        policies.push(*policy)?;
    }
    Ok(())
}

impl StepList {
    ghost use Rattle.std.specs.Prelude.{◌≡◌, ◌++◌, [], ◌∷◌, length, map, OnOk, OnErr};
    ghost use Rattle.scenario_text.specs.Plan.{asked, with_policies, with_policy, policies_in};

    /// Creates an empty list.
    pub fn new(alloc: Global) -> StepList
        ensures { result ≡ [] }
    {
        StepList {
            bare_steps: Vec::new(alloc),
            policies: Vec::new(alloc),
        }
    }

    /// Adds a step of a user. An error means out of memory, and changes nothing.
    #[tactic(auto, using(crate::proofs::WithPoliciesLemmas::with_policies_more, crate::proofs::WithPoliciesLemmas::policies_more))]
    pub fn push(&mut self, user: Uid, step: &PlainStep) -> Result<(), AllocError>
        ensures ok { OnOk result (self.new ≡ self.old ++ asked (user, step.now) ∷ []) }
        ensures err { OnErr result (self.new ≡ self.old) }
    {
        self.bare_steps.reserve(1)?;
        push_policy(&mut self.policies, step)?;
        self.bare_steps.push_reserved((user, bare_step(step)));
        Ok(())
    }

    /// Adds a step of a user, with the policy of the rules if it installs one. An error means out of memory, and
    /// changes nothing.
    #[tactic(auto, using(crate::proofs::WithPoliciesLemmas::with_policies_bare, crate::proofs::WithPoliciesLemmas::policies_more))]
    pub(crate) fn push_bare(
        &mut self,
        user: Uid,
        bare_step: BareStep,
        rules: &Result<Policy, KeyError>,
    ) -> Result<(), AllocError>
        ensures ok { OnOk result (self.new ≡ self.old ++ with_policy (policy_in rules.now) (user, bare_step) ∷ []) }
        ensures err { OnErr result (self.new ≡ self.old) }
    {
        self.bare_steps.reserve(1)?;
        push_rules(&mut self.policies, &bare_step, rules)?;
        self.bare_steps.push_reserved((user, bare_step));
        Ok(())
    }

    /// Returns the number of steps.
    #[tactic(auto, using(crate::proofs::WithPoliciesLemmas::length_with_policies))]
    pub fn len(&self) -> usize
        ensures { result ≡ length self.now }
    {
        self.bare_steps.len()
    }

    /// Returns the steps in order, each with its user and without its policy.
    #[tactic(auto, using(crate::proofs::WithPoliciesLemmas::length_with_policies))]
    pub fn bare_steps(&self) -> &[(Uid, BareStep)]
        ensures steps { with_policies result.now (policies_in self.now) ≡ self.now }
        ensures count { length result.now ≡ length self.now }
    {
        self.bare_steps.as_slice()
    }

    /// Returns the steps in order, each with its user.
    #[tactic(auto, using(crate::proofs::WithPoliciesLemmas::asked_again))]
    pub fn iter(&self) -> Steps<'_>
        ensures { map asked result ≡ self.now }
    {
        Steps {
            bare_steps: self.bare_steps.as_slice(),
            policies: self.policies.as_slice(),
        }
    }

    /// Returns the policies of the installs, in order.
    pub fn policies(&self) -> &[Policy]
        ensures { result.now ≡ policies_in self.now }
    {
        self.policies.as_slice()
    }
}
