//! Laws of the tracing machine's steps.

ghost use Rattle.std.specs.Prelude.{◌≡◌, true};
ghost use Rattle.requests.specs.Laws.{SoundKept, SoundAtFirst, SoundRuns, step_fits};
ghost use Rattle.requests.specs.Refusals.{ListingSame, NoStepRunsOutOfMemory, NoReportChangesNothing, RefusalChangesNothing};

use crate::PlainStep;

/// Every step of every user keeps a host sound.
pub fn stays_sound()
    ensures { SoundKept }
{}

/// An unused host is sound, and so is a sound host after any list of steps.
#[tactic(auto, using(crate::proofs::SoundAfterSpawn::empty_sound))]
pub fn runs_stay_sound()
    ensures first { SoundAtFirst }
    ensures runs { SoundRuns }
{}

/// An exit status is a byte, as its type says.
pub fn fits(step: PlainStep)
    ensures { step_fits step ≡ true }
{}

/// A refused step changes nothing.
pub fn a_refusal_changes_nothing()
    ensures { RefusalChangesNothing }
{}

/// A wait or a handle that has nothing to report changes nothing.
pub fn no_report_changes_nothing()
    ensures { NoReportChangesNothing }
{}

/// No step of the machine runs out of memory: only the host answers ENOMEM.
#[tactic(auto, using(crate::proofs::RefusalsChangeNothing::no_step_runs_out_of_memory))]
pub fn no_step_runs_out_of_memory()
    ensures { NoStepRunsOutOfMemory }
{}

/// A step that answers a list changes nothing.
pub fn a_list_changes_nothing()
    ensures { ListingSame }
{}
