//! Laws of what a scenario is, proved without code.

ghost use Rattle.scenario_text.specs.Laws.{SetOfOne, SetOfBoth, SetOfObject};

/// A set of keys is a set of their names: each key has its own, two sets have those of both, and an object's keys are
/// among the allowed ones exactly if each member's name is.
#[tactic(auto, using(crate::proofs::KeySets::of_sets))]
pub fn keys_are_names()
    ensures one { SetOfOne }
    ensures both { SetOfBoth }
    ensures object { SetOfObject }
{}
