//! The laws of flat replies and of the calls on a handle, proved without code.
ghost use Rattle.tracehost_c.specs.Laws.{AllCallsArePrivate, HandleCallsArePrivate};
ghost use Rattle.tracehost_c.specs.Replies.{FlatFormsDiffer, OneReply};

use open_sessions::laws::calls_are_private;
use step_types::laws::words_differ;

/// The calls of many users on one handle, in any order, typed ones and lines, from an open session on. The handle stays
/// open. Each user gets the replies to the user's own answered steps without any other user, and sees what they leave.
pub fn handle_calls_are_private()
    ensures { HandleCallsArePrivate }
{
    calls_are_private();
}

/// The calls on many handles, in any order: handles are opened, copied, copied over and closed, and each session is called
/// by many users. An open handle's session is the one that the calls of its history lead to, those of a copy's source
/// among them. In it each user got the replies to the user's own steps without any other user. So it is for all sessions
/// of a search.
pub fn all_calls_are_private()
    ensures { AllCallsArePrivate }
{
    calls_are_private();
}

/// Two replies with the same flat form are the same reply, except that a list counts by its length, and a status by its
/// word. Since no two statuses have the same word, they are the same reply if they are no lists.
pub fn flat_forms_differ()
    ensures alike { FlatFormsDiffer }
    ensures same { OneReply }
{
    words_differ();
}
