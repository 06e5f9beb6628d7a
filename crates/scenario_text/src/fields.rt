//! What the keys of a step say.
ghost use Rattle.std.specs.Prelude.{◌≡◌};
ghost use Rattle.serde_json.specs.Data.{no_members};
ghost use Rattle.scenario_text.specs.Keys.{only};
ghost use Rattle.scenario_text.specs.Steps.{policy_in};

use crate::keys::Keys;
use event_masks::{CallKind, EventMask};
use pid_blocks::Uid;
use signals::{Disposition, SigSet};
use step_types::{ActKind, Options, Request, StepKind};
use stop_handlers::Policy;

/// The flaw of a step.
#[derive(Clone, Copy, Drop)]
pub(crate) enum KeyError {
    Shape,
    User,
    Name,
    Number,
    TooManyRules,
}

/// What each key of a step says, or its flaw. A key that is missing has the flaw `Shape`, or its default if it may be
/// missing.
#[derive(Clone, Copy, Drop)]
pub(crate) struct Fields {
    /// The keys that the step has.
    pub(crate) keys: Keys,
    pub(crate) user: Result<Uid, KeyError>,
    pub(crate) op: Result<StepKind, KeyError>,
    pub(crate) caller: Result<u32, KeyError>,
    pub(crate) which: Result<i64, KeyError>,
    pub(crate) options: Result<Options, KeyError>,
    pub(crate) signal: Result<u32, KeyError>,
    pub(crate) action: Result<Disposition, KeyError>,
    pub(crate) rules: Result<Policy, KeyError>,
    pub(crate) lwp: Result<u32, KeyError>,
    pub(crate) act: Result<ActKind, KeyError>,
    pub(crate) call: Result<CallKind, KeyError>,
    pub(crate) code: Result<i64, KeyError>,
    pub(crate) set: Result<SigSet, KeyError>,
    pub(crate) request: Result<Request, KeyError>,
    pub(crate) target: Result<u32, KeyError>,
    pub(crate) data: Result<u32, KeyError>,
    pub(crate) mask: Result<EventMask, KeyError>,
}

impl Fields {
    ghost use Rattle.scenario_text.specs.Steps.{fields_in};

    /// Returns what the keys of an empty object say.
    pub(crate) fn none() -> Fields
        ensures { result ≡ fields_in no_members }
    {
        Fields {
            keys: Keys::NONE,
            user: Err(KeyError::Shape),
            op: Err(KeyError::Shape),
            caller: Err(KeyError::Shape),
            which: Err(KeyError::Shape),
            options: Ok(Options {
                untraced: false,
                continued: false,
            }),
            signal: Err(KeyError::Shape),
            action: Err(KeyError::Shape),
            rules: Err(KeyError::Shape),
            lwp: Err(KeyError::Shape),
            act: Err(KeyError::Shape),
            call: Err(KeyError::Shape),
            code: Err(KeyError::Shape),
            set: Err(KeyError::Shape),
            request: Err(KeyError::Shape),
            target: Err(KeyError::Shape),
            data: Ok(0),
            mask: Err(KeyError::Shape),
        }
    }
}

/// Returns the policy of the rules, and one without rules if they have a flaw.
#[inline(never)]
pub(crate) fn policy_in(rules: &Result<Policy, KeyError>) -> Policy
    ensures { result ≡ policy_in rules.now }
{
    match rules {
        Ok(policy) => *policy,
        Err(_) => {
            let Ok(policy) = Policy::new(&[]) else {
                unreachable!()
            };
            policy
        }
    }
}

/// Checks that there are no keys but the allowed ones.
pub(crate) fn only(allowed: Keys, keys: Keys) -> Result<(), KeyError>
    ensures { result ≡ only allowed keys }
{
    if keys.are_among(allowed) {
        Ok(())
    } else {
        Err(KeyError::Shape)
    }
}
