//! Sessions made on hosts, each reply compared with its line.

use crate::lines::{step_in, steps_in};
use crate::rows::{Row, rows_of};
use crate::{TestError, expect};
use requests::{Host, Reply};
use std::alloc::Global;
use stop_handlers::{ByPolicy, Decider, Policy};
use trace_stop::Settings;
use visibility::run_list;

/// Makes the step of a line, which is no install, and checks the reply.
fn make<F: Decider + Send + Drop>(
    alloc: Global,
    host: &mut Host<F>,
    line: &Row<'_>,
) -> Result<(), TestError> {
    let (user, step) = step_in(alloc, line.given, None)?;
    let Some(step) = step.with_handler(None) else {
        return Err(TestError::Wrong("a session without handlers installs one"));
    };
    let reply = host.step(alloc, user, step);
    line.check(alloc, &reply)
}

/// Makes the steps of a session, without installs, and checks each reply.
pub fn follow<F: Decider + Send + Drop>(
    alloc: Global,
    host: &mut Host<F>,
    text: &str,
) -> Result<(), TestError> {
    for line in rows_of(alloc, text)?.iter() {
        make(alloc, host, line)?;
    }
    Ok(())
}

/// Checks that the replies are those of the lines, and no others.
pub fn check_replies(alloc: Global, lines: &[Row<'_>], replies: &[Reply]) -> Result<(), TestError> {
    let name = "there are more or fewer replies than lines";
    expect(replies.len() == lines.len(), name)?;
    for (line, reply) in lines.iter().zip(replies.iter()) {
        line.check(alloc, reply)?;
    }
    Ok(())
}

/// Returns an unused host after the steps of the lines, as one list, and checks each reply. An install has this policy.
pub fn host_after(
    alloc: Global,
    lines: &[Row<'_>],
    policy: Option<&Policy>,
) -> Result<Host<ByPolicy>, TestError> {
    let steps = steps_in(alloc, lines, policy)?;
    let mut host = Host::new(alloc, Settings::standard())?;
    let replies = run_list(alloc, &mut host, steps)?;
    check_replies(alloc, lines, replies.as_slice())?;
    Ok(host)
}
