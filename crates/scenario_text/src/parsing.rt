//! From bytes to a scenario.
ghost use Rattle.std.specs.Prelude.{List, ℕ, Result, Err, ◌≡◌, ◌≢◌, ◌<◌, ◌≤◌, length, IfOk, IfErr};
ghost use Rattle.json.specs.Json.{value};
ghost use Rattle.json_values.specs.Reading.{read_members};
ghost use Rattle.serde_json.specs.Data.{Members, object};
ghost use Rattle.serde_json.specs.Read.{of_json, converted, read};
ghost use Rattle.scenario_text.specs.Streams.{AreRead, IsNamed, Tries, taken, TriesText};
ghost use Rattle.scenario_text.specs.Plan.{Plan, max_steps};
ghost use Rattle.scenario_text.specs.declared.fault.Fault.{Fault};
ghost use Rattle.scenario_text.specs.declared.fault.Fault.TheVariants.{Read as ReadFault, TooManySteps};
ghost use Rattle.scenario_text.specs.Scenarios.{at_step, head_settings, settings_of, plan_of, StandsFor, Yields, Answers};

use crate::atoms::integer;
use crate::fault::Fault;
use crate::fields::KeyError;
use crate::listing::{Listed, read_steps};
use crate::plan::{MAX_STEPS, Scenario};
use crate::step_list::StepList;
use crate::stop::Stop;
use json_values::{Opening, Tokens, next_scalar, open_value, pass_items, pass_value};
use simdutf8::from_utf8_baseline;
use std::alloc::Global;
use step_types::Settings;

/// The most bytes of a scenario's text.
pub(crate) const MAX_BYTES: usize = 4194304;

/// The greatest depth of nested arrays and objects in a text.
pub(crate) const MAX_DEPTH: usize = 127;

impl KeyError {
    pub(crate) fn at(self, number: u32) -> Fault
        ensures { result ≡ at_step number self }
    {
        match self {
            KeyError::Shape => Fault::BadShape(number),
            KeyError::User => Fault::BadUser(number),
            KeyError::Name => Fault::BadName(number),
            KeyError::Number => Fault::BadNumber(number),
            KeyError::TooManyRules => Fault::TooManyRules(number),
        }
    }
}

fn settings_of(kill: i64) -> Result<Settings, KeyError>
    ensures { result ≡ settings_of kill }
{
    match kill {
        0 => Ok(Settings::detach_on_exit()),
        1 => Ok(Settings::standard()),
        _ => Err(KeyError::Number),
    }
}

/// Returns the settings, if the scenario has no other keys.
fn head_settings(kill: Result<i64, KeyError>, is_alone: bool) -> Result<Settings, KeyError>
    ensures { result ≡ head_settings kill is_alone }
{
    let kill = kill?;
    if !is_alone {
        return Err(KeyError::Shape);
    }
    settings_of(kill)
}

/// Returns the steps of a list of at most `MAX_STEPS`, or the fault of the first that has one.
fn bounded_steps(list: Listed) -> Result<StepList, Fault>
    requires { length list.steps ≤ list.count }
    ensures many { max_steps < list.count → result ≡ Err TooManySteps }
    ensures few { list.count ≤ max_steps → result ≡ taken list }
    ensures bound { IfOk result (λ steps. length steps ≤ max_steps) }
    ensures no_read { IfErr result (λ e. e ≢ ReadFault) }
{
    if list.count > MAX_STEPS {
        return Err(Fault::TooManySteps);
    }
    match list.flaw {
        Some((number, flaw)) => Err(flaw.at(number)),
        None => Ok(list.steps),
    }
}

/// Returns the scenario of what was read of its members: its steps, the value of `kill_on_debugger_exit`, and whether
/// it has no other keys. The error is its first fault.
#[tactic(auto, using(std::proofs::lemmas::Bool::Decides::nat_tests), unfolding(crate::specs::Scenarios::plan_of, crate::specs::Scenarios::head_of))]
fn scenario_of(
    steps: Result<Listed, KeyError>,
    kill: Result<i64, KeyError>,
    is_alone: bool,
) -> Result<Scenario, Fault>
    requires { IfOk steps (λ list. length list.steps ≤ list.count) }
    ensures yields { (ms : Members) → AreRead steps kill is_alone ms → Yields (λ s. s) result (plan_of (object ms)) }
    ensures no_read { IfErr result (λ e. e ≢ ReadFault) }
{
    let list = match steps {
        Ok(list) => list,
        Err(flaw) => return Err(flaw.at(0)),
    };
    let settings = match head_settings(kill, is_alone) {
        Ok(settings) => settings,
        Err(flaw) => return Err(flaw.at(0)),
    };
    let steps = bounded_steps(list)?;
    Ok(Scenario::new(settings, steps))
}

/// A key of a scenario.
#[derive(Clone, Copy, Drop)]
pub(crate) enum ScenarioKey {
    Steps,
    KillOnDebuggerExit,
    Other,
}

fn scenario_key(name: &str) -> ScenarioKey
    ensures { IsNamed result name.now }
{
    if name == "steps" {
        ScenarioKey::Steps
    } else if name == "kill_on_debugger_exit" {
        ScenarioKey::KillOnDebuggerExit
    } else {
        ScenarioKey::Other
    }
}

/// Reads the members of the object that the reader is in.
#[tactic(auto, using(crate::proofs::ReadLoops::ends))]
fn read_scenario_members(
    alloc: Global,
    reader: &mut Tokens<'_>,
    depth: usize,
) -> Result<Result<Scenario, Fault>, Stop>
    requires { 4 < depth }
    ensures scenario { Tries (λ r ms. Yields (λ s. s) r (plan_of (object ms))) (read_members depth reader.old) result reader.new }
    ensures no_read { IfOk result (λ r. IfErr r (λ e. e ≢ ReadFault)) }
{
    let mut steps = Err(KeyError::Shape);
    let mut kill = Ok(1);
    let mut is_alone = true;
    'members: while let Some(name) = reader.next_key()? {
        match scenario_key(name) {
            ScenarioKey::Steps => steps = read_steps(alloc, reader, depth)?,
            ScenarioKey::KillOnDebuggerExit => {
                let atom = next_scalar(reader, depth)?;
                kill = integer(&atom);
            }
            ScenarioKey::Other => {
                pass_value(reader, depth)?;
                is_alone = false;
            }
        }
    }
    Ok(scenario_of(steps, kill, is_alone))
}

/// Reads the next value, which may be a scenario.
#[tactic(auto, using(crate::proofs::ReadLoops::opened))]
fn read_scenario(alloc: Global, reader: &mut Tokens<'_>) -> Result<Result<Scenario, Fault>, Stop>
    ensures scenario { Tries (λ r d. Yields (λ s. s) r (plan_of d)) (converted of_json (value 127 reader.old)) result reader.new }
    ensures no_read { IfOk result (λ r. IfErr r (λ e. e ≢ ReadFault)) }
{
    let opening = open_value(reader)?;
    match opening {
        Opening::Object => read_scenario_members(alloc, reader, MAX_DEPTH - 1),
        Opening::Array => {
            pass_items(reader, MAX_DEPTH - 1)?;
            Ok(Err(Fault::BadShape(0)))
        }
        Opening::Scalar(_) => Ok(Err(Fault::BadShape(0))),
    }
}

/// Returns the scenario of a text, or the first fault of the value that the text is.
fn read_text(alloc: Global, text: &str) -> Result<Result<Scenario, Fault>, Stop>
    ensures scenario { TriesText (λ r d. Yields (λ s. s) r (plan_of d)) (read text.now) result }
    ensures no_read { IfOk result (λ r. IfErr r (λ e. e ≢ ReadFault)) }
{
    let mut scratch = Vec::new(alloc);
    let mut reader = Tokens::new(text, &mut scratch)?;
    let scenario = read_scenario(alloc, &mut reader)?;
    if reader.next().is_some() {
        return Err(Stop::Invalid);
    }
    Ok(scenario)
}

/// Returns the scenario of the bytes of a JSON text.
///
/// # Errors
///
/// The first check that fails: at most `MAX_BYTES` bytes, a JSON text, the shape of the whole, at most `MAX_STEPS`
/// steps, and then each step in order. Of a step, the keys are checked in the order of its op, and then that it has no
/// other keys. `Memory` if memory runs out. Never `Read`.
#[tactic(auto, using(crate::specs::Scenarios::too_long, crate::specs::Scenarios::no_value, crate::specs::Scenarios::value))]
pub fn parse(alloc: Global, bytes: &[u8]) -> Result<Scenario, Fault>
    ensures stands { Answers result (StandsFor bytes.now) }
    ensures no_read { IfErr result (λ e. e ≢ ReadFault) }
{
    if bytes.len() > MAX_BYTES {
        return Err(Fault::TooLong);
    }
    let Ok(text) = from_utf8_baseline(bytes) else {
        return Err(Fault::BadJson);
    };
    match read_text(alloc, text) {
        Ok(result) => result,
        Err(Stop::Invalid) => Err(Fault::BadJson),
        Err(Stop::Memory) => Err(Fault::Memory),
    }
}

/// All bytes have at most one scenario or fault: not two scenarios, not two faults, and not one of each.
#[tactic(auto, using(crate::proofs::Answering::one))]
pub fn one_answer()
    ensures { (bytes : List ℕ) (r q : Result Plan Fault) → StandsFor bytes r → StandsFor bytes q → r ≡ q }
{}
