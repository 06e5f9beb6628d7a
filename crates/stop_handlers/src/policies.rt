ghost use Rattle.std.specs.Prelude.{◌≡◌, ◌≤◌, ◌↔◌, length, IsTrue, OkIff};
ghost use Rattle.stop_handlers.specs.Decide.{decide};

use crate::rules::{are_same, idle};
use crate::{Decision, Policy, Rule, StopView, TooManyRules};

impl Policy {
    /// Returns the policy of these rules, in their order. Fails for more than 16 rules.
    pub fn new(rules: &[Rule]) -> Result<Policy, TooManyRules>
        ensures { OkIff result (length rules.now ≤ 16) rules.now }
    {
        if rules.len() > 16 {
            return Err(TooManyRules);
        }
        let mut kept = [idle(); 16];
        kept[..rules.len()].copy_from_slice(rules);
        Ok(Policy {
            rules: kept,
            count: rules.len(),
        })
    }

    /// Returns the rules, in their order.
    pub fn rules(&self) -> &[Rule]
        ensures { result.now ≡ self.now }
    {
        &self.rules[..self.count]
    }

    /// Tests whether both policies have the same rules in the same order.
    pub fn is_same(&self, other: &Policy) -> bool
        ensures { IsTrue result ↔ (self.now ≡ other.now) }
    {
        are_same(self.rules(), other.rules())
    }

    /// Returns the decision of the first rule that fits the stop, or `Decline` if none fits.
    pub fn decide(&self, view: &StopView) -> Decision
        ensures { result ≡ decide self.now view.now }
    {
        self.rules()
            .iter()
            .find(|rule| rule.fits(view))
            .map_or(Decision::Decline, |rule| rule.decision)
    }
}
