//! Laws of sessions.
ghost use Rattle.open_sessions.specs.Laws.{AnswersAlike, CallsArePrivate, EachLineIsItsStep, HostMakesAlike, LeavesStates, MachineMakesAlike};
ghost use Rattle.open_sessions.specs.LineLaws.{AsScenario, SessionsArePrivate};
ghost use Rattle.open_sessions.specs.ViewWords.{WordsTell};

/// In a session each user gets the replies to the user's own steps without any other user, and sees what they leave.
/// The calls of all users may alternate in any order, typed ones and lines. A line that is not a step is refused.
pub fn calls_are_private()
    ensures { CallsArePrivate }
{}

/// A session in which all lines are steps has the output of the scenario with these steps, if memory doesn't run out.
pub fn as_scenario()
    ensures { AsScenario }
{}

/// In a session each user gets the replies to the user's own steps without any other user.
pub fn sessions_are_private()
    ensures { SessionsArePrivate }
{}

/// Two views that are the same numbers are the same view, so a state is all that a user sees.
pub fn states_tell()
    ensures { WordsTell }
{}

/// Two sessions that have the same state for a user answer the user's next step alike, and have the same state again.
/// So a search may join them. Memory that runs out isn't part of a state.
pub fn same_states_answer_alike()
    ensures alike { AnswersAlike }
    ensures others { LeavesStates }
{}

/// The line of each step whose bits have names is read as this step.
pub fn each_line_is_its_step()
    ensures { EachLineIsItsStep }
{}

/// A step and that of its line have the same reply, and the same host after them. So what a session was asked can be
/// replayed from its lines.
pub fn a_line_is_made_alike()
    ensures machine { MachineMakesAlike }
    ensures host { HostMakesAlike }
{}
