use crate::step_list::{BareStep, StepList};
use pid_blocks::Uid;
use std::marker::Model;
use step_types::Settings;
use stop_handlers::Policy;

/// The number of users.
pub const USERS: usize = 64;

/// The most steps of a scenario.
pub(crate) const MAX_STEPS: usize = 100000;

/// At most `MAX_STEPS` steps of users in order, and the settings of the host for them.
#[derive(Drop)]
pub struct Scenario {
    /// The settings of the host.
    pub settings: Settings,
    /// The steps in order, each with its user.
    pub steps: StepList,
}

impl Model for Scenario {
    ghost use Rattle.std.specs.Prelude.{◌≤◌, length};
    ghost use Rattle.scenario_text.specs.Plan.{Plan, max_steps};

    ghost Value = { Plan };

    ghost view = { λ s. record { settings = s.settings; steps = s.steps } };

    ghost invariant = { λ s. length s.steps ≤ max_steps };
}

impl Scenario {
    ghost use Rattle.std.specs.Prelude.{◌≡◌, ◌≤◌, length};
    ghost use Rattle.scenario_text.specs.Plan.{Plan, with_policies, max_steps, policies_in};

    /// Creates the scenario of these steps. There are at most `MAX_STEPS` of them.
    pub fn new(settings: Settings, steps: StepList) -> Scenario
        requires { length steps ≤ max_steps }
        ensures { result ≡ record { settings = settings; steps = steps } }
    {
        Scenario { settings, steps }
    }

    /// Returns the steps in order, each with its user and without the policy that it installs.
    pub fn bare_steps(&self) -> &[(Uid, BareStep)]
        ensures steps { with_policies result.now (policies_in self.now.steps) ≡ self.now.steps }
        ensures bound { length result.now ≤ max_steps }
    {
        self.steps.bare_steps()
    }

    /// Returns the policies of the installs, in order.
    pub fn policies(&self) -> &[Policy]
        ensures { result.now ≡ policies_in self.now.steps }
    {
        self.steps.policies()
    }
}
