ghost use Rattle.std.specs.Prelude.{◌≡◌, ◌↔◌, None, IsTrue};
ghost use Rattle.stop_handlers.specs.Decide.{fits};
ghost use Rattle.stop_handlers.specs.Policies.{idle};

use crate::{Decision, Rule, StopView};
use bitflags::Flags;
use event_masks::StopFlags;

impl Rule {
    /// Tests whether the rule decides the stop: it names the stop's signal or none, and the stop shows all its flags.
    pub fn fits(&self, view: &StopView) -> bool
        ensures { result ≡ fits view.now self.now }
    {
        let named = match self.signal {
            None => true,
            Some(signal) => signal == view.sig,
        };
        named && view.flags.contains(self.flags)
    }
}

/// Returns the rule that fills up a policy's array.
pub(crate) fn idle() -> Rule
    ensures { result ≡ idle }
{
    Rule {
        flags: StopFlags(0),
        signal: None,
        decision: Decision::Decline,
    }
}

/// Tests whether two lists of rules are the same.
pub(crate) fn are_same(left: &[Rule], right: &[Rule]) -> bool
    ensures { IsTrue result ↔ (left.now ≡ right.now) }
{
    if left.len() != right.len() {
        return false;
    }
    for (i, rule) in left.iter().enumerate() {
        if !is_same(rule, &right[i]) {
            return false;
        }
    }
    true
}

fn is_same(left: &Rule, right: &Rule) -> bool
    ensures { IsTrue result ↔ (left.now ≡ right.now) }
{
    *left == *right
}
