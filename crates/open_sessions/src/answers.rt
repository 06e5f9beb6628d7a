//! The last answer of a session.
ghost use Rattle.std.specs.Prelude.{◌≡◌, IfOk, option_map};
ghost use Rattle.open_sessions.specs.Answers.{last_numbers, last_reply, line_reply};

use pid_blocks::Uid;
use requests::Reply;
use scenario_runs::Fault;
use std::alloc::{AllocError, Global};

/// An answer: a reply to a user, or the fault for which a line is not a step.
pub(crate) type LineAnswer = Result<(Uid, Reply), Fault>;

/// Returns the answer, if it is a reply.
pub(crate) fn reply_of(last: &Option<LineAnswer>) -> Option<&Reply>
    ensures { option_map (λ r. r.now) result ≡ last_reply (option_map line_reply last.now) }
{
    match last {
        Some(Ok(answer)) => Some(&answer.1),
        _ => None,
    }
}

/// Returns the numbers of the answer, if it is a list, or else none.
pub(crate) fn numbers_of(last: &Option<LineAnswer>) -> &[u32]
    ensures { result.now ≡ last_numbers (option_map line_reply last.now) }
{
    match last {
        Some(Ok((_, Reply::Lwps(numbers) | Reply::Pids(numbers)))) => numbers.as_slice(),
        _ => &[],
    }
}

/// Returns an equal answer. An error means out of memory: only a list takes memory.
pub(crate) fn copy_of(
    alloc: Global,
    last: &Option<LineAnswer>,
) -> Result<Option<LineAnswer>, AllocError>
    ensures { IfOk result (λ copy. copy ≡ last.now) }
{
    Ok(match last {
        None => None,
        Some(Ok(answer)) => Some(Ok((answer.0, answer.1.copy(alloc)?))),
        Some(Err(fault)) => Some(Err(*fault)),
    })
}
