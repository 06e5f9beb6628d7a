//! Laws of the end of a process.

ghost use Rattle.trace_stop.specs.Laws.{LeafEnd, DetachedEnd, LeafEndsFirst, TraceeDoomed, LeafExists, LeafEndsNoOther, LeafEndLeavesFewer, LeafEndSparesNoDoomed, EndSound};

/// If a process without live tracees ends, no other process ends.
#[tactic(auto, using(crate::proofs::LeafEnd::leaf_end))]
pub fn leaf_end()
    ensures { LeafEnd }
{}

/// If a process ends and its tracees are detached, no other process ends.
pub fn detached_end()
    ensures { DetachedEnd }
{}

/// If a debugger's end kills, a process without live tracees that ends with another can end first: the result is
/// the same.
pub fn leaf_ends_first()
    ensures { LeafEndsFirst }
{}

/// If a debugger's end kills, a live tracee of a process that ends, or of a process that ends with it, ends with it
/// too.
pub fn tracee_doomed()
    ensures { TraceeDoomed }
{}

/// If other processes end with a process, one of them has no live tracee.
#[tactic(auto, using(crate::proofs::Descents::leaf_exists))]
pub fn leaf_exists()
    ensures { LeafExists }
{}

/// If a debugger's end kills, the end of a process without live tracees ends no other process.
pub fn leaf_ends_no_other()
    ensures { LeafEndsNoOther }
{}

/// If a debugger's end kills, fewer processes are live after the end of a process without live tracees.
pub fn leaf_end_leaves_fewer()
    ensures { LeafEndLeavesFewer }
{}

/// If a process without live tracees ends before the one that it is to end with, all others that were to end with
/// that one still are.
#[tactic(auto, using(crate::proofs::LeafEndsFirst::leaf_end_spares_no_doomed))]
pub fn leaf_end_spares_no_doomed()
    ensures { LeafEndSparesNoDoomed }
{}

/// Sound rows are sound after the end of a live process.
#[tactic(auto, using(crate::proofs::Descents::end_sound))]
pub fn end_sound()
    ensures { EndSound }
{}
