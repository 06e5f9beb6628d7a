//! The acts of an LWP at its turn.
ghost use Rattle.std.specs.Prelude.{◌≡◌};
ghost use Rattle.scenario_text.specs.Steps.{call_of, call_keys, turn_keys, act_of};
ghost use Rattle.step_types.specs.declared.ActKind.TheVariants as acts;

use crate::atoms::within;
use crate::fields::{Fields, KeyError, only};
use crate::keys::Keys;
use event_masks::{Call, CallKind};
use step_types::{Act, ActKind};

/// Returns the call, with the exit code of an exit and the number of another call.
fn call_of(step: &Fields, kind: CallKind) -> Result<Call, KeyError>
    ensures { result ≡ call_of kind step.now }
{
    match kind {
        CallKind::Exit => {
            let code = within(step.code?, 0, 255, KeyError::Number)?;
            Ok(Call::Exit(code as u8))
        }
        CallKind::Fork => Ok(Call::Fork),
        CallKind::Exec => Ok(Call::Exec),
        CallKind::Vfork => Ok(Call::Vfork),
        CallKind::ThrExit => Ok(Call::ThrExit),
        CallKind::ThrNew => Ok(Call::ThrNew),
        CallKind::Other => {
            let code = within(step.code?, 0, u32::MAX, KeyError::Number)?;
            Ok(Call::Other(code))
        }
    }
}

/// Returns the keys that every turn has.
fn turn_keys() -> Keys
    ensures { result ≡ turn_keys }
{
    Keys::USER | Keys::OP | Keys::LWP | Keys::ACT
}

/// Returns the keys of a turn that enters such a call.
fn call_keys(kind: CallKind) -> Keys
    ensures { result ≡ call_keys kind }
{
    match kind {
        CallKind::Exit | CallKind::Other => turn_keys() | Keys::CALL | Keys::CODE,
        CallKind::Fork | CallKind::Exec | CallKind::Vfork | CallKind::ThrExit | CallKind::ThrNew =>
            { turn_keys() | Keys::CALL }
    }
}

fn raise_of(step: &Fields) -> Result<Act, KeyError>
    ensures { result ≡ act_of acts.Raise step.now }
{
    let signal = step.signal?;
    only(turn_keys() | Keys::SIGNAL, step.keys)?;
    Ok(Act::Raise(signal))
}

fn block_of(step: &Fields) -> Result<Act, KeyError>
    ensures { result ≡ act_of acts.Block step.now }
{
    let set = step.set?;
    only(turn_keys() | Keys::SET, step.keys)?;
    Ok(Act::Block(set))
}

fn enter_of(step: &Fields) -> Result<Act, KeyError>
    ensures { result ≡ act_of acts.Enter step.now }
{
    let kind = step.call?;
    let call = call_of(step, kind)?;
    only(call_keys(kind), step.keys)?;
    Ok(Act::Enter(call))
}

/// Returns the act of a turn, from its keys.
pub(crate) fn act_of(step: &Fields, kind: ActKind) -> Result<Act, KeyError>
    ensures { result ≡ act_of kind step.now }
{
    match kind {
        ActKind::Compute => {
            only(turn_keys(), step.keys)?;
            Ok(Act::Compute)
        }
        ActKind::Leave => {
            only(turn_keys(), step.keys)?;
            Ok(Act::Leave)
        }
        ActKind::Raise => raise_of(step),
        ActKind::Block => block_of(step),
        ActKind::Enter => enter_of(step),
    }
}
