//! Reads a text that is one step.
ghost use Rattle.std.specs.Prelude.{◌≢◌, IfErr};
ghost use Rattle.serde_json.specs.Read.{read};
ghost use Rattle.scenario_text.specs.Fields.{Gives};
ghost use Rattle.scenario_text.specs.OneStep.{IsStep, AnswersBy};
ghost use Rattle.scenario_text.specs.Plan.{asked};
ghost use Rattle.scenario_text.specs.Streams.{TriesText};
ghost use Rattle.scenario_text.specs.Steps.{step_of};
ghost use Rattle.scenario_text.specs.declared.fault.Fault.TheVariants.{Read as ReadFault};

use crate::fault::Fault;
use crate::fields::{Fields, KeyError};
use crate::members::read_step;
use crate::parsing::MAX_DEPTH;
use crate::step_list::plain_step;
use crate::stop::Stop;
use json_values::Tokens;
use pid_blocks::Uid;
use std::alloc::Global;
use step_types::PlainStep;

/// The most bytes of a step's text.
pub const MAX_STEP_BYTES: usize = 65536;

/// Returns the step of a text, or its first flaw.
fn read_text(text: &str, scratch: &mut Vec<u8>) -> Result<Result<(Uid, PlainStep), KeyError>, Stop>
    ensures { TriesText (λ x d. Gives asked x (step_of d)) (read text.now) result }
{
    let mut reader = Tokens::new(text, scratch)?;
    let mut fields = Fields::none();
    let step = read_step(&mut reader, MAX_DEPTH, &mut fields)?;
    if reader.next().is_some() {
        return Err(Stop::Invalid);
    }
    match step {
        Ok((user, bare_step)) => Ok(Ok((user, plain_step(&bare_step, &fields.rules)))),
        Err(flaw) => Ok(Err(flaw)),
    }
}

/// Reads steps one after another, and uses the memory of one again for the next. It keeps room for the longest text.
#[derive(Drop)]
pub struct StepReader {
    scratch: Vec<u8>,
}

impl StepReader {
    /// Creates a reader, which takes memory only once it reads.
    pub fn new(alloc: Global) -> StepReader {
        StepReader {
            scratch: Vec::new(alloc),
        }
    }

    /// Returns the step that the bytes of a JSON text are, in the form of an item of a scenario's steps.
    ///
    /// # Errors
    ///
    /// The first check that fails: at most `MAX_STEP_BYTES` bytes, a JSON text, and then the step's keys as `parse`
    /// checks them. The step has the number 1. `Memory` if memory runs out. Never `Read`. After an error the reader
    /// reads on as before.
    #[tactic(auto, using(crate::specs::OneStep::too_long, crate::specs::OneStep::no_value, crate::specs::OneStep::value))]
    pub fn parse_step(&mut self, alloc: Global, bytes: &[u8]) -> Result<(Uid, PlainStep), Fault>
        ensures step { AnswersBy asked result (IsStep bytes.now) }
        ensures no_read { IfErr result (λ e. e ≢ ReadFault) }
    {
        if bytes.len() > MAX_STEP_BYTES {
            return Err(Fault::TooLong);
        }
        let Ok(text) = str::from_utf8(bytes) else {
            return Err(Fault::BadJson);
        };
        match read_text(text, &mut self.scratch) {
            Ok(Ok(step)) => Ok(step),
            Ok(Err(flaw)) => Err(flaw.at(1)),
            Err(Stop::Invalid) => Err(Fault::BadJson),
            Err(Stop::Memory) => Err(Fault::Memory),
        }
    }
}

/// Returns the step that the bytes of a JSON text are, as `StepReader::parse_step` does, by a reader of its own.
pub fn parse_step(alloc: Global, bytes: &[u8]) -> Result<(Uid, PlainStep), Fault>
    ensures step { AnswersBy asked result (IsStep bytes.now) }
    ensures no_read { IfErr result (λ e. e ≢ ReadFault) }
{
    StepReader::new(alloc).parse_step(alloc, bytes)
}
