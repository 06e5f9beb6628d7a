//! The kinds of decisions, with their names and numbers.

ghost use Rattle.std.specs.Prelude.{◌≡◌, Some};
ghost use Rattle.stop_handlers.specs.Decisions.{kind_of_decision, decision_name, decision_named, decision_number, decision_numbered};

use crate::{Decision, DecisionKind};

impl Decision {
    /// Returns the kind of the decision.
    pub fn kind(&self) -> DecisionKind
        ensures { result ≡ kind_of_decision self.now }
    {
        match self {
            Decision::Decline => DecisionKind::Decline,
            Decision::Leave => DecisionKind::Leave,
            Decision::Continue(_) => DecisionKind::Continue,
            Decision::Detach(_) => DecisionKind::Detach,
            Decision::Kill => DecisionKind::Kill,
        }
    }
}

impl DecisionKind {
    /// Returns the name in a rule.
    pub fn name(&self) -> &'static str
        ensures named { result.now ≡ decision_name self.now }
        ensures inverse { decision_named result.now ≡ Some self.now }
    {
        match self {
            DecisionKind::Decline => "decline",
            DecisionKind::Leave => "leave",
            DecisionKind::Continue => "continue",
            DecisionKind::Detach => "detach",
            DecisionKind::Kill => "kill",
        }
    }

    /// Returns the kind with this name, or `None` if no kind has it.
    pub fn by_name(name: &str) -> Option<DecisionKind>
        ensures { result ≡ decision_named name.now }
    {
        match name {
            "decline" => Some(DecisionKind::Decline),
            "leave" => Some(DecisionKind::Leave),
            "continue" => Some(DecisionKind::Continue),
            "detach" => Some(DecisionKind::Detach),
            "kill" => Some(DecisionKind::Kill),
            _ => None,
        }
    }

    /// Returns the number.
    pub fn number(&self) -> u32
        ensures numbered { result ≡ decision_number self.now }
        ensures inverse { decision_numbered result ≡ Some self.now }
    {
        match self {
            DecisionKind::Decline => 0,
            DecisionKind::Leave => 1,
            DecisionKind::Continue => 2,
            DecisionKind::Detach => 3,
            DecisionKind::Kill => 4,
        }
    }

    /// Returns the kind with this number, or `None` if no kind has it.
    pub fn by_number(number: u32) -> Option<DecisionKind>
        ensures { result ≡ decision_numbered number }
    {
        match number {
            0 => Some(DecisionKind::Decline),
            1 => Some(DecisionKind::Leave),
            2 => Some(DecisionKind::Continue),
            3 => Some(DecisionKind::Detach),
            4 => Some(DecisionKind::Kill),
            _ => None,
        }
    }
}
