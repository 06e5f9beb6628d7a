//! Laws of chains of tracers, of detaching, and of one user's rows at the end of a process.

ghost use Rattle.trace_rows.specs.EndLaws.{EndOwn, EndOthers};
ghost use Rattle.trace_rows.specs.Laws.{ChainsEnd, ChainsMeet, TraceeDeeper, DetachedSound};

/// A chain of tracers has at most 249 links.
#[tactic(auto, using(crate::proofs::Chains::chains_end))]
pub fn chains_end()
    ensures { ChainsEnd }
{}

/// 249 links of a chain of tracers reach all that any number of links reaches.
#[tactic(auto, using(crate::proofs::Chains::chains_meet))]
pub fn chains_meet()
    ensures { ChainsMeet }
{}

/// A tracee's chain of tracers is one longer than its tracer's.
#[tactic(auto, using(crate::proofs::Chains::tracee_deeper))]
pub fn tracee_deeper()
    ensures { TraceeDeeper }
{}

/// Sound rows are still sound after live processes were detached from their tracers.
#[tactic(auto, using(crate::proofs::SoundAfterDetach::detached_sound))]
pub fn detached_sound()
    ensures { DetachedSound }
{}

/// Among its user's rows, the end of a process has the same result as if no other user had rows. It leaves
/// every other user's rows unchanged.
pub fn ends_are_apart()
    ensures own { EndOwn }
    ensures others { EndOthers }
{}
