//! The rules of a policy.
ghost use Rattle.std.specs.Prelude.{◌≡◌, ◌<◌, ◌≤◌, OnOk, length};
ghost use Rattle.event_masks.specs.Exits.{no_flags};
ghost use Rattle.serde_json.specs.Data.{no_members};
ghost use Rattle.scenario_text.specs.Fields.{atom_in, name_in, within};
ghost use Rattle.stop_handlers.specs.Decisions.{decision_named};
ghost use Rattle.scenario_text.specs.declared.fields.KeyError.TheVariants.{Number};
ghost use Rattle.scenario_text.specs.Rules.{rule_fields_in, pass_in, some_signal, decision_of, rule_keys, rule_from, rule_of, rules_of, policy_of};
ghost use Rattle.scenario_text.specs.Streams.{Reads, ReadsItems, ReadsMembers};

use crate::arrays::read_set;
use crate::atoms::{integer, signal_in, text, within};
use crate::fields::{KeyError, only};
use crate::keys::{Key, Keys, next_key, set_of};
use event_masks::StopFlags;
use json::Invalid;
use json_values::{
    Opening, Scalar, Tokens, next_scalar, open_item, open_value, pass_items, pass_members,
    pass_value,
};
use signals::{Pass, Signal};
use stop_handlers::{Decision, DecisionKind, Policy, Rule};

/// What each key of a rule says, or its flaw.
#[derive(Clone, Copy, Drop)]
pub(crate) struct RuleFields {
    /// The keys that the rule has.
    pub(crate) keys: Keys,
    pub(crate) signal: Result<Option<Signal>, KeyError>,
    pub(crate) flags: Result<StopFlags, KeyError>,
    pub(crate) decision: Result<DecisionKind, KeyError>,
    pub(crate) pass: Result<Pass, KeyError>,
}

/// Returns the signal with this number, or none for 0, with which a process is resumed.
fn pass_of(number: i64) -> Result<Pass, KeyError>
    ensures { result ≡ within 0 31 Number number }
{
    match Pass::new(within(number, 0, 31, KeyError::Number)?) {
        Ok(pass) => Ok(pass),
        Err(_) => Err(KeyError::Number),
    }
}

fn pass_in(atom: &Scalar<'_>) -> Result<Pass, KeyError>
    ensures { result ≡ pass_in (atom_in atom.now) }
{
    pass_of(integer(atom)?)
}

fn some_signal(atom: &Scalar<'_>) -> Result<Option<Signal>, KeyError>
    ensures { result ≡ some_signal (atom_in atom.now) }
{
    Ok(Some(signal_in(atom)?))
}

fn decision_in(atom: &Scalar<'_>) -> Result<DecisionKind, KeyError>
    ensures { result ≡ name_in decision_named (atom_in atom.now) }
{
    DecisionKind::by_name(text(atom)?).ok_or(KeyError::Name)
}

fn decision_of(rule: &RuleFields, kind: DecisionKind) -> Result<Decision, KeyError>
    ensures { result ≡ decision_of kind rule.now }
{
    match kind {
        DecisionKind::Decline => Ok(Decision::Decline),
        DecisionKind::Leave => Ok(Decision::Leave),
        DecisionKind::Continue => Ok(Decision::Continue(rule.pass?)),
        DecisionKind::Detach => Ok(Decision::Detach(rule.pass?)),
        DecisionKind::Kill => Ok(Decision::Kill),
    }
}

/// Returns the keys of a rule with such a decision.
fn rule_keys(kind: DecisionKind) -> Keys
    ensures { result ≡ rule_keys kind }
{
    match kind {
        DecisionKind::Decline | DecisionKind::Leave | DecisionKind::Kill => {
            Keys::SIGNAL | Keys::FLAGS | Keys::DECISION
        }
        DecisionKind::Continue | DecisionKind::Detach => {
            Keys::SIGNAL | Keys::FLAGS | Keys::DECISION | Keys::PASS
        }
    }
}

impl RuleFields {
    ghost use Rattle.scenario_text.specs.Rules.{rule_fields_in};
    ghost use Rattle.scenario_text.specs.Streams.{with_rule_atom, with_rule_value, with_named_rule};

    /// Returns what the keys of an empty object say.
    fn none() -> RuleFields
        ensures { result ≡ rule_fields_in no_members }
    {
        RuleFields {
            keys: Keys::NONE,
            signal: Ok(None),
            flags: Ok(StopFlags::none()),
            decision: Err(KeyError::Shape),
            pass: pass_of(0),
        }
    }

    /// Sets what a key says.
    fn set(&mut self, key: Key, atom: &Scalar<'_>)
        ensures { self.new ≡ with_rule_atom key (atom_in atom.now) self.old }
    {
        match key {
            Key::Signal => self.signal = some_signal(atom),
            Key::Decision => self.decision = decision_in(atom),
            Key::Pass => self.pass = pass_in(atom),
            _ => {}
        }
    }

    /// Reads the value of a key.
    fn read(&mut self, reader: &mut Tokens<'_>, depth: usize, key: Key) -> Result<(), Invalid>
        requires { 0 < depth }
        ensures value { Reads (λ _ d. self.new ≡ with_rule_value key d self.old) depth result reader.old reader.new }
        ensures shorter { OnOk result (length reader.new < length reader.old) }
    {
        if let Key::Flags = key {
            self.flags = read_set(reader, depth, StopFlags::none())?;
        } else {
            let atom = next_scalar(reader, depth)?;
            self.set(key, &atom);
        }
        Ok(())
    }

    /// Reads the value of a key, or passes over that of any other name.
    fn read_named(
        &mut self,
        reader: &mut Tokens<'_>,
        depth: usize,
        key: Option<Key>,
    ) -> Result<(), Invalid>
        requires { 0 < depth }
        ensures value { Reads (λ _ d. self.new ≡ with_named_rule key d self.old) depth result reader.old reader.new }
        ensures shorter { OnOk result (length reader.new < length reader.old) }
    {
        match key {
            Some(key) => {
                self.read(reader, depth, key)?;
                self.keys = set_of(key) | self.keys;
                Ok(())
            }
            None => {
                pass_value(reader, depth)?;
                self.keys = Keys::OTHER | self.keys;
                Ok(())
            }
        }
    }

    /// Returns the rule with these keys. The error is its first flaw.
    #[tactic(auto, unfolding(crate::specs::Rules::rule_from))]
    fn rule(&self) -> Result<Rule, KeyError>
        ensures { result ≡ rule_from self.now }
    {
        let signal = self.signal?;
        let flags = self.flags?;
        let kind = self.decision?;
        let decision = decision_of(self, kind)?;
        only(rule_keys(kind), self.keys)?;
        Ok(Rule {
            signal,
            flags,
            decision,
        })
    }
}

/// Returns the key that comes behind another one in the usual order of a rule's keys.
#[inline(always)]
fn likely_after(key: Option<Key>) -> Key {
    match key {
        Some(Key::Signal) => Key::Flags,
        Some(Key::Flags) => Key::Decision,
        _ => Key::Pass,
    }
}

/// Reads the members of the object that the reader is in.
#[tactic(auto, using(crate::proofs::ReadLoops::ends))]
fn read_rule_fields(reader: &mut Tokens<'_>, depth: usize) -> Result<RuleFields, Invalid>
    requires { 0 < depth }
    ensures members { ReadsMembers (λ f ms. f ≡ rule_fields_in ms) depth result reader.old reader.new }
    ensures shorter { OnOk result (length reader.new < length reader.old) }
{
    let mut fields = RuleFields::none();
    let mut likely = Key::Signal;
    'members: while let Some(key) = next_key(reader, likely)? {
        fields.read_named(reader, depth, key)?;
        likely = likely_after(key);
    }
    Ok(fields)
}

/// Reads the next value, which may be a rule.
#[tactic(auto, using(crate::proofs::ReadLoops::opened))]
fn read_rule(reader: &mut Tokens<'_>, depth: usize) -> Result<Result<Rule, KeyError>, Invalid>
    requires { 1 < depth }
    ensures rule { Reads (λ x d. x ≡ rule_of d) depth result reader.old reader.new }
    ensures shorter { OnOk result (length reader.new < length reader.old) }
{
    let opening = open_item(reader)?;
    match opening {
        Opening::Object => {
            let fields = read_rule_fields(reader, depth - 1)?;
            Ok(fields.rule())
        }
        Opening::Array => {
            pass_items(reader, depth - 1)?;
            Ok(Err(KeyError::Shape))
        }
        Opening::Scalar(_) => Ok(Err(KeyError::Shape)),
    }
}

/// The rules of an array so far, or the flaw of the first that has one.
#[derive(Drop)]
pub(crate) struct RuleList {
    pub(crate) rules: [Rule; 16],
    /// How many items there were, or 17 for more than 16.
    pub(crate) count: usize,
    pub(crate) flaw: Option<KeyError>,
}

impl RuleList {
    ghost use Rattle.std.specs.Prelude.{Ok, [], ◌+◌};
    ghost use Rattle.scenario_text.specs.Streams.{pushed, rules_taken};

    fn none() -> RuleList
        ensures taken { rules_taken result ≡ Ok [] }
        ensures count { result.count ≡ 0 }
    {
        let idle = Rule {
            signal: None,
            flags: StopFlags::none(),
            decision: Decision::Decline,
        };
        RuleList {
            rules: [idle; 16],
            count: 0,
            flaw: None,
        }
    }

    /// Adds one more rule, or its flaw.
    fn push(&mut self, rule: Result<Rule, KeyError>)
        requires { self.old.count < 16 }
        ensures taken { rules_taken self.new ≡ pushed (rules_taken self.old) rule }
        ensures count { self.new.count ≡ self.old.count + 1 }
    {
        if self.flaw.is_none() {
            match rule {
                Ok(rule) => self.rules[self.count] = rule,
                Err(flaw) => self.flaw = Some(flaw),
            }
        }
        self.count += 1;
    }

    /// Returns the policy of these rules.
    fn policy(&self) -> Result<Policy, KeyError>
        requires { self.now.count ≤ 16 }
        ensures { result ≡ rules_taken self.now }
    {
        if let Some(flaw) = self.flaw {
            return Err(flaw);
        }
        match Policy::new(&self.rules[..self.count]) {
            Ok(policy) => Ok(policy),
            Err(_) => Err(KeyError::TooManyRules),
        }
    }
}

/// Reads the items of the array that the reader is in. More than 16 rules are refused before any of them is judged.
#[tactic(auto, using(crate::proofs::ReadLoops::ends, crate::proofs::Lists::few_rules, crate::proofs::Lists::many_rules))]
fn read_policy(reader: &mut Tokens<'_>, depth: usize) -> Result<Result<Policy, KeyError>, Invalid>
    requires { 1 < depth }
    ensures policy { ReadsItems (λ x ds. x ≡ policy_of ds) depth result reader.old reader.new }
    ensures shorter { OnOk result (length reader.new < length reader.old) }
{
    let mut list = RuleList::none();
    'items: while !reader.take_end_array() {
        if list.count < 16 {
            let rule = read_rule(reader, depth)?;
            list.push(rule);
        } else {
            pass_value(reader, depth)?;
            list.count = 17;
        }
    }
    if list.count > 16 {
        return Ok(Err(KeyError::TooManyRules));
    }
    Ok(list.policy())
}

/// Reads the next value, which may be an array of rules.
#[inline(never)]
#[tactic(auto, using(crate::proofs::ReadLoops::opened))]
pub(crate) fn read_rules(
    reader: &mut Tokens<'_>,
    depth: usize,
) -> Result<Result<Policy, KeyError>, Invalid>
    requires { 2 < depth }
    ensures rules { Reads (λ x d. x ≡ rules_of d) depth result reader.old reader.new }
    ensures shorter { OnOk result (length reader.new < length reader.old) }
{
    let opening = open_value(reader)?;
    match opening {
        Opening::Array => read_policy(reader, depth - 1),
        Opening::Object => {
            pass_members(reader, depth - 1)?;
            Ok(Err(KeyError::Shape))
        }
        Opening::Scalar(_) => Ok(Err(KeyError::Shape)),
    }
}
