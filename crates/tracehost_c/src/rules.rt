//! Rules of stop handlers as numbers.
ghost use Rattle.std.specs.Prelude.{◌≡◌};
ghost use Rattle.tracehost_c.specs.Rules.{rule_numbered, decision_of, pass_numbered, signal_numbered, policy_numbered};

use event_masks::StopFlags;
use signals::{Pass, Signal};
use stop_handlers::{Decision, DecisionKind, Policy, Rule};

/// A rule of a stop handler.
#[repr(C)]
#[derive(Clone, Copy, Debug, PartialEq, Eq, Drop)]
pub struct FlatRule {
    /// The bits of the flags that a stop has to have.
    pub flags: u32,
    /// The signal that a stop has to have, or 0 for any.
    pub signal: u32,
    /// The number of the decision's kind.
    pub decision: u32,
    /// The signal that a continuation or a detachment passes on, or 0.
    pub pass: u32,
}

fn pass_of(number: u32) -> Option<Pass>
    ensures { result ≡ pass_numbered number }
{
    Pass::new(number).ok()
}

fn decision_of(number: u32, pass: u32) -> Option<Decision>
    ensures { result ≡ decision_of number pass }
{
    match DecisionKind::by_number(number)? {
        DecisionKind::Decline => Some(Decision::Decline),
        DecisionKind::Leave => Some(Decision::Leave),
        DecisionKind::Continue => Some(Decision::Continue(pass_of(pass)?)),
        DecisionKind::Detach => Some(Decision::Detach(pass_of(pass)?)),
        DecisionKind::Kill => Some(Decision::Kill),
    }
}

/// Returns the signal that a rule names; 0 names none. `None` above 31.
fn signal_of(number: u32) -> Option<Option<Signal>>
    ensures { result ≡ signal_numbered number }
{
    if number == 0 {
        return Some(None);
    }
    match Signal::new(number) {
        Ok(signal) => Some(Some(signal)),
        Err(_) => None,
    }
}

impl FlatRule {
    /// Returns the rule with these numbers. `None` if a flag, the signal, the decision or the signal that it passes
    /// on doesn't exist.
    pub fn rule(&self) -> Option<Rule>
        ensures { result ≡ rule_numbered self.now }
    {
        if self.flags >= 512 {
            return None;
        }
        let signal = signal_of(self.signal)?;
        let decision = decision_of(self.decision, self.pass)?;
        Some(Rule {
            flags: StopFlags(self.flags),
            signal,
            decision,
        })
    }
}

/// Returns the policy of these rules, in their order. `None` for more than 16 rules, or if one of them doesn't exist.
pub fn policy_of(rules: &[FlatRule]) -> Option<Policy>
    ensures { result ≡ policy_numbered rules.now }
{
    if rules.len() > 16 {
        return None;
    }
    let idle = Rule {
        flags: StopFlags(0),
        signal: None,
        decision: Decision::Decline,
    };
    let mut kept = [idle; 16];
    for place in 0..rules.len() {
        kept[place] = rules[place].rule()?;
    }
    Policy::new(&kept[..rules.len()]).ok()
}
