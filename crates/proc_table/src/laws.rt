//! Laws of walks, look-ups, counts and new numbers.

ghost use Rattle.proc_table.specs.Laws.{NextOfLeast, NextTraceeLeast, NextChildLeast, NextSeesOwn, ProcessSeesOwn, LwpSeesOwn, NumberSeesOwn, CountsSeeOwn, FreshSeesOwn};

/// A walk over processes in rising order returns the row with the least number above the given one among
/// those that pass the walk's test, and none if no row passes.
#[tactic(auto, using(crate::proofs::Least::least_laws))]
pub fn walks_give_the_least()
    ensures users { NextOfLeast }
    ensures tracees { NextTraceeLeast }
    ensures children { NextChildLeast }
{}

/// A user's walk, look-ups, counts and new numbers are the same if no other user has rows.
#[tactic(auto, using(crate::proofs::OwnRows::own_laws))]
pub fn a_user_sees_own_rows()
    ensures walks { NextSeesOwn }
    ensures processes { ProcessSeesOwn }
    ensures lwps { LwpSeesOwn }
    ensures numbers { NumberSeesOwn }
    ensures counts { CountsSeeOwn }
    ensures fresh { FreshSeesOwn }
{}
