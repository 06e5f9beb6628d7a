//! Laws of what a wait answers, proved without code.

ghost use Rattle.wait4.specs.Laws.{ReportedLeast, ReportedOwn, CollectOwn, AfterOwn, AfterOthers};

/// A wait reports the child with the least number of those that it is for and that have something to report,
/// and none if there is no such child.
#[tactic(auto, using(crate::proofs::LemmaSets::of_waits))]
pub fn the_least_is_reported()
    ensures { ReportedLeast }
{}

/// Among its user's rows, a wait reports, answers and leaves the same as if no other user had rows. It
/// leaves every other user's rows unchanged.
#[tactic(auto, using(crate::proofs::LemmaSets::of_waits))]
pub fn waits_are_apart()
    ensures reported { ReportedOwn }
    ensures collected { CollectOwn }
    ensures rows { AfterOwn }
    ensures others { AfterOthers }
{}
