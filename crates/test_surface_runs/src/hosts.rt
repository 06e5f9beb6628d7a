//! Helpers of the checks.

ghost use Rattle.std.specs.Prelude.{◌<◌};

use host_lock::{Entry, Journal};
use pid_blocks::Uid;
use requests::{Host, Reply, Step};
use std::alloc::{AllocError, Global};
use stop_handlers::{ByPolicy, Handler, Policy};
use test_kit::{Row, TestError, expect, step_in};
use trace_stop::Settings;

/// Creates an unused host. `None` if memory ran out.
pub fn new_host(alloc: Global) -> Option<Host<ByPolicy>> {
    Host::<ByPolicy>::new(alloc, Settings::standard()).ok()
}

/// Returns the lines of `count` spawns of the user, with the numbers from these on.
pub fn spawns(
    alloc: Global,
    user: Uid,
    pid: u32,
    tid: u32,
    count: u32,
) -> Result<String, AllocError>
    requires { (pid < 65000) × (tid < 356000) × (count < 65000) }
{
    let user = user.get();
    let mut text = String::new(alloc);
    for place in 0..count {
        writeln!(text, "{user}: spawn -> new {} {}", pid + place, tid + place)?;
    }
    Ok(text)
}

/// Returns the steps of the lines, with handlers that answer by their policies. An install has this policy.
pub fn steps_of(
    alloc: Global,
    lines: &[Row<'_>],
    policy: Option<&Policy>,
) -> Result<Vec<Step<Handler<ByPolicy>>>, TestError> {
    let mut steps = Vec::new(alloc);
    for line in lines {
        steps.push(step_in(alloc, line.given, policy)?.1.by_policy())?;
    }
    Ok(steps)
}

/// Checks that the entry is this line. An install has this policy.
pub fn check_entry(
    alloc: Global,
    entry: &Entry,
    line: &Row<'_>,
    policy: Option<&Policy>,
) -> Result<(), TestError> {
    let (user, step) = step_in(alloc, line.given, policy)?;
    let is_same = entry.uid == user && entry.step == step;
    expect(is_same, "an entry has another step")?;
    line.check(alloc, &entry.reply)
}

/// Returns the entries of the session, in order.
fn entries_of<'a>(
    alloc: Global,
    journal: &'a Journal,
    session: usize,
) -> Result<Vec<&'a Entry>, AllocError> {
    let mut own = Vec::new(alloc);
    for place in 0..journal.len() {
        if let Some(entry) = journal.get(place) {
            if entry.session == session {
                own.push(entry)?;
            }
        }
    }
    Ok(own)
}

/// Checks that the session's entries are these lines, in order, and no others. An install has this policy.
pub fn check_lines(
    alloc: Global,
    journal: &Journal,
    session: usize,
    lines: &[Row<'_>],
    policy: Option<&Policy>,
) -> Result<(), TestError> {
    let own = entries_of(alloc, journal, session)?;
    let is_whole = own.len() == lines.len();
    expect(is_whole, "a session has more or fewer entries than lines")?;
    for (entry, line) in own.iter().zip(lines.iter()) {
        check_entry(alloc, entry, line, policy)?;
    }
    Ok(())
}

/// Checks that the session's entries have these replies, in order, and no others.
pub fn check_entry_replies(
    alloc: Global,
    journal: &Journal,
    session: usize,
    replies: &[Reply],
) -> Result<(), TestError> {
    let own = entries_of(alloc, journal, session)?;
    let is_whole = own.len() == replies.len();
    expect(is_whole, "a session has more or fewer entries than replies")?;
    for (entry, reply) in own.iter().zip(replies.iter()) {
        let is_same = entry.reply == *reply;
        expect(is_same, "a transcript differs from the journal")?;
    }
    Ok(())
}
