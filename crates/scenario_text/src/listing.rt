//! The steps of an array, read one after another.
ghost use Rattle.std.specs.Prelude.{◌≡◌, ◌+◌, ◌<◌, ◌≤◌, OnOk, length};
ghost use Rattle.json_values.specs.Reading.{read_items};
ghost use Rattle.scenario_text.specs.Fields.{items_of};
ghost use Rattle.scenario_text.specs.Streams.{IsListOf, StepsAre, Tries, pushed, taken};
ghost use Rattle.scenario_text.specs.Plan.{max_steps};
ghost use Rattle.scenario_text.specs.Scenarios.{numbered};
ghost use Rattle.scenario_text.specs.Steps.{policy_in, step_of};
ghost use Rattle.serde_json.specs.Read.{of_json, converted};
ghost use Rattle.json.specs.Json.{value};

use crate::fields::{Fields, KeyError};
use crate::members::read_step;
use crate::plan::MAX_STEPS;
use crate::step_list::{BareStep, StepList};
use crate::stop::Stop;
use json_values::{Opening, Tokens, open_value, pass_members, pass_value};
use pid_blocks::Uid;
use std::alloc::{AllocError, Global};
use stop_handlers::Policy;

/// The steps of an array so far, or the flaw of the first that has one.
#[derive(Drop)]
pub(crate) struct Listed {
    pub(crate) steps: StepList,
    /// How many items there were, or `MAX_STEPS + 1` for more than `MAX_STEPS`.
    pub(crate) count: usize,
    /// The first step with a flaw, by its number.
    pub(crate) flaw: Option<(u32, KeyError)>,
}

impl Listed {
    ghost use Rattle.std.specs.Prelude.{Ok, Err, []};
    ghost use Rattle.scenario_text.specs.Plan.{with_policy};
    ghost use Rattle.scenario_text.specs.Scenarios.{at_step};

    fn none(alloc: Global) -> Listed
        ensures taken { taken result ≡ Ok [] }
        ensures count { result.count ≡ 0 }
        ensures few { length result.steps ≤ result.count }
    {
        Listed {
            steps: StepList::new(alloc),
            count: 0,
            flaw: None,
        }
    }

    /// Adds one more step, with the policy of the rules if it installs one. An error means out of memory.
    fn add(
        &mut self,
        user: Uid,
        bare_step: BareStep,
        rules: &Result<Policy, KeyError>,
    ) -> Result<(), AllocError>
        requires room { self.old.count < max_steps }
        requires few { length self.old.steps ≤ self.old.count }
        ensures taken { OnOk result (taken self.new ≡ pushed (taken self.old) (Ok (with_policy (policy_in rules.now) (user, bare_step)))) }
        ensures count { OnOk result (self.new.count ≡ self.old.count + 1) }
        ensures few { OnOk result (length self.new.steps ≤ self.old.count + 1) }
    {
        if self.flaw.is_none() {
            self.steps.push_bare(user, bare_step, rules)?;
        }
        self.count += 1;
        Ok(())
    }

    /// Adds the flaw of one more step.
    fn fail(&mut self, flaw: KeyError)
        requires room { self.old.count < max_steps }
        requires few { length self.old.steps ≤ self.old.count }
        ensures taken { taken self.new ≡ pushed (taken self.old) (Err (at_step (self.old.count + 1) flaw)) }
        ensures count { self.new.count ≡ self.old.count + 1 }
        ensures few { length self.new.steps ≤ self.old.count + 1 }
    {
        if self.flaw.is_none() {
            self.flaw = Some((self.count as u32 + 1, flaw));
        }
        self.count += 1;
    }
}

/// Reads the next value, which may be a step, and adds it to the list.
fn add_next(
    reader: &mut Tokens<'_>,
    depth: usize,
    fields: &mut Fields,
    list: &mut Listed,
) -> Result<(), Stop>
    requires deep { 3 < depth }
    requires room { list.old.count < max_steps }
    requires few { length list.old.steps ≤ list.old.count }
    ensures next { Tries (λ _ d. taken list.new ≡ pushed (taken list.old) (numbered (list.old.count + 1) (step_of d))) (converted of_json (value depth reader.old)) result reader.new }
    ensures count { OnOk result (list.new.count ≡ list.old.count + 1) }
    ensures few { OnOk result (length list.new.steps ≤ list.old.count + 1) }
    ensures shorter { OnOk result (length reader.new < length reader.old) }
{
    match read_step(reader, depth, fields)? {
        Ok((user, bare_step)) => {
            list.add(user, bare_step, &fields.rules)?;
            Ok(())
        }
        Err(flaw) => {
            list.fail(flaw);
            Ok(())
        }
    }
}

/// Reads the items of the array that the reader is in.
#[tactic(auto, using(crate::proofs::ReadLoops::ends, crate::proofs::Lists::is_list))]
fn read_list(alloc: Global, reader: &mut Tokens<'_>, depth: usize) -> Result<Listed, Stop>
    requires { 3 < depth }
    ensures list { Tries IsListOf (read_items depth reader.old) result reader.new }
    ensures shorter { OnOk result (length reader.new < length reader.old) }
{
    let mut list = Listed::none(alloc);
    let mut fields = Fields::none();
    'items: while !reader.take_end_array() {
        if list.count < MAX_STEPS {
            add_next(reader, depth, &mut fields, &mut list)?;
        } else {
            pass_value(reader, depth)?;
            list.count = MAX_STEPS + 1;
        }
    }
    Ok(list)
}

/// Reads the next value, which may be an array of steps.
#[tactic(auto, using(crate::proofs::ReadLoops::opened))]
pub(crate) fn read_steps(
    alloc: Global,
    reader: &mut Tokens<'_>,
    depth: usize,
) -> Result<Result<Listed, KeyError>, Stop>
    requires { 4 < depth }
    ensures steps { Tries (λ x d. StepsAre x (items_of d)) (converted of_json (value depth reader.old)) result reader.new }
    ensures shorter { OnOk result (length reader.new < length reader.old) }
{
    let opening = open_value(reader)?;
    match opening {
        Opening::Array => {
            let list = read_list(alloc, reader, depth - 1)?;
            Ok(Ok(list))
        }
        Opening::Object => {
            pass_members(reader, depth - 1)?;
            Ok(Err(KeyError::Shape))
        }
        Opening::Scalar(_) => Ok(Err(KeyError::Shape)),
    }
}
