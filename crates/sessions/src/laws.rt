//! Laws of runs of scripts: what they give a user is the same for every schedule.

ghost use Rattle.sessions.specs.Schedules.{AlikeJournals, EverySchedule};

use stop_handlers::Decider;

/// A user's transcript, and what the user sees at the end, depend on neither the schedule nor the scripts of others.
///
/// Two runs start from hosts that show the user the same. Each has one script of the user, with the same steps, of
/// which none is answered ENOMEM. Then both transcripts have the same replies, and the user sees the same at the end.
/// The premises are clauses of `run_sessions`, so two runs of the same scripts are an instance.
pub fn every_schedule<F: Decider + Send + Drop>()
    ensures { EverySchedule F }
{}

/// Two journals start from hosts that show a user the same. The steps of the user's entries, who may have several
/// sessions, differ only in numbers that the user doesn't see. Then these entries have the same replies, and the user
/// sees the same at the end.
pub fn alike_journals()
    ensures { AlikeJournals }
{}
