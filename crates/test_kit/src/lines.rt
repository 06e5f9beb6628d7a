//! Sessions as lines of text: in each row a user's step, an arrow, and the expected reply.

use crate::TestError;
use crate::rows::Row;
use crate::steps::step_of;
use pid_blocks::Uid;
use requests::{PlainStep, Step};
use std::alloc::Global;
use stop_handlers::{ByPolicy, Handler, Policy};

/// The user of lines that name none.
const FIRST: u32 = 1001;

/// Returns the user and the step in these words, or `None` if they are none.
fn asked(words: &[&str], policy: Option<&Policy>) -> Option<(Uid, PlainStep)> {
    let (first, rest) = words.split_first()?;
    let (user, words) = match first.strip_suffix(":") {
        Some(user) => (user.parse().ok()?, rest),
        None => (FIRST, words),
    };
    Some((Uid::new(user).ok()?, step_of(words, policy)?))
}

/// Returns the user and the step in these words: `[USER:] STEP`, as `1002: turn 104000 leave`. Without a user it is of user
/// 1001. An install has this policy.
pub fn step_in(
    alloc: Global,
    text: &str,
    policy: Option<&Policy>,
) -> Result<(Uid, PlainStep), TestError> {
    let words: Vec<&str> = text.split_whitespace().collect(alloc)?;
    match asked(words.as_slice(), policy) {
        Some(step) => Ok(step),
        None => Err(TestError::Line(format!(in alloc; "`{text}` is no step")?)),
    }
}

/// Returns the users and the steps of the lines, with handlers that answer by their policies.
pub fn steps_in(
    alloc: Global,
    lines: &[Row<'_>],
    policy: Option<&Policy>,
) -> Result<Vec<(Uid, Step<Handler<ByPolicy>>)>, TestError> {
    let mut steps = Vec::new(alloc);
    for line in lines {
        let (user, step) = step_in(alloc, line.given, policy)?;
        steps.push((user, step.by_policy()))?;
    }
    Ok(steps)
}

/// Returns the lines of one user.
pub fn lines_of<'a>(
    alloc: Global,
    lines: &[Row<'a>],
    user: Uid,
    policy: Option<&Policy>,
) -> Result<Vec<Row<'a>>, TestError> {
    let mut own = Vec::new(alloc);
    for line in lines {
        let (whose, _) = step_in(alloc, line.given, policy)?;
        if whose == user {
            own.push(Row {
                given: line.given,
                wanted: line.wanted,
            })?;
        }
    }
    Ok(own)
}
