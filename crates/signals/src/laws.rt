//! What the table of signals and the sets of signals state for each signal.

ghost use Rattle.std.specs.Prelude.{◌≡◌, ℕ, false, true, map, IfSome, IfNone};
ghost use Rattle.signals.specs.Sets.{has, lowest, numbers};
ghost use Rattle.signals.specs.Names.{table, by_name, signal_name};
ghost use Rattle.signals.specs.Laws.{IsSignal, MembersAfter, IsLowest, AllAct};

use crate::SigSet;

/// The rows of the table are the 31 signals in rising order, each with its default action.
#[tactic(auto, unfolding(crate::specs::Names::table))]
pub fn table_has_every_signal()
    ensures numbers { map (λ r. r.number) table ≡ numbers }
    ensures actions { AllAct table }
{}

/// The signals that a set contains after each change.
pub fn sets_are_of_signals()
    ensures empty { (n : ℕ) → has 0 n ≡ false }
    ensures members { (set other n m : ℕ) → IsSignal n → IsSignal m → MembersAfter set other n m }
{}

/// The lowest signal of a set is its least member. Only an empty set has none.
#[tactic(auto, using(crate::proofs::Members::lowest_laws))]
pub fn lowest_is_least(set: SigSet)
    ensures some { IfSome (lowest set) (IsLowest set) }
    ensures none { IfNone (lowest set) ((n : ℕ) → IsSignal n → has set n ≡ false) }
{}
