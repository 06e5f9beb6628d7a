//! The steps of a scenario, by their places.
use json::Writer;
use open_sessions::push_step;
use pid_blocks::Uid;
use scenario_runs::{BareStep, Scenario};
use std::alloc::{AllocError, Global};
use step_types::Step;
use stop_handlers::Policy;

/// The index of no step. A scenario has fewer steps.
const NO_STEP: u32 = u32::MAX;

/// The steps of a scenario, with the policies that they install.
#[derive(Drop)]
pub struct ScenarioSteps<'a> {
    scenario: &'a Scenario,
    /// The indices of the installs, rising. Each has the policy in its place.
    installs: Vec<u32>,
}

/// Returns the indices of the installs.
fn installs_of(alloc: Global, steps: &[(Uid, BareStep)]) -> Result<Vec<u32>, AllocError> {
    let mut installs = Vec::new(alloc);
    for (index, step) in steps.iter().enumerate() {
        if let Step::Install { .. } = step.1 {
            installs.push(u32::try_from(index).unwrap_or(NO_STEP))?;
        }
    }
    Ok(installs)
}

impl<'a> ScenarioSteps<'a> {
    /// The steps of the scenario. An error means out of memory.
    pub fn new(alloc: Global, scenario: &'a Scenario) -> Result<ScenarioSteps<'a>, AllocError> {
        Ok(ScenarioSteps {
            scenario,
            installs: installs_of(alloc, scenario.bare_steps())?,
        })
    }

    /// The step with this index, counted from 0, and the policy that it installs.
    fn at(&self, index: u32) -> Option<(&'a BareStep, Option<&'a Policy>)> {
        let scenario = self.scenario;
        let step = scenario.bare_steps().get(index as usize)?;
        let policy = match self.installs.binary_search(&index) {
            Ok(place) => scenario.policies().get(place),
            Err(_) => None,
        };
        Some((&step.1, policy))
    }

    /// Returns the step with this index, counted from 0, as a JSON object without its user; nothing if there is none. An
    /// error means out of memory.
    pub fn text(&self, alloc: Global, index: usize) -> Result<Vec<u8>, AllocError> {
        let mut out = Writer::new(Vec::new(alloc));
        if let Some((step, policy)) = self.at(u32::try_from(index).unwrap_or(NO_STEP)) {
            out.begin_object()?;
            push_step(&mut out, step, policy)?;
            out.end_object()?;
        }
        Ok(out.into_inner())
    }
}
