//! Calls of a shared host. A call is refused if memory runs out.

ghost use Rattle.std.specs.Prelude.{All, IfOk};
ghost use Rattle.host_lock.specs.Sessions.{IsOf, IsSame};

use crate::steps::{Case, Made, new_host};
use host_lock::{Answer, Entry, Journal, Session, SharedHost};
use pid_blocks::Uid;
use requests::{Host, PlainStep, Reply};
use std::alloc::Global;
use std::sync::Wait;
use stop_handlers::ByPolicy;
use test_kit::{TestError, expect};

/// Shares an unused host among a session of each of the users, and retries while that is refused.
fn open(case: &Case<'_>) -> Result<(SharedHost<ByPolicy>, Vec<Session>), TestError>
    ensures { IfOk result (λ r. All (IsOf r.0) r.1.items) }
{
    let scenario = case.scenario;
    retry!(
        Ok(opened) = {
            let host = new_host(case.alloc, scenario.settings)?;
            SharedHost::open(case.alloc, host, &[case.first, case.second])
        }
    )
}

/// Makes a call, and returns its reply, or `None` if it is refused. Checks that it counts as one call in both cases.
fn replied<R: Wait>(
    rt: &R,
    alloc: Global,
    host: &SharedHost<ByPolicy>,
    session: &mut Session,
    step: &PlainStep,
) -> Result<Option<Reply>, TestError>
    requires { IsOf host.now session.old }
    ensures { IsSame session.old session.new }
{
    let made = session.calls_made();
    let Answer::Reply(reply) = host.call(rt, alloc, session, step.by_policy()) else {
        return Err(TestError::Wrong("a session is spent"));
    };
    let is_one = session.calls_made() == made.wrapping_add(1);
    expect(is_one, "a call counts otherwise than as one")?;
    Ok(if reply.is_memory() { None } else { Some(reply) })
}

/// Makes a call, retries while it is refused, and returns its reply.
fn call<R: Wait>(
    rt: &R,
    alloc: Global,
    host: &SharedHost<ByPolicy>,
    session: &mut Session,
    step: &PlainStep,
) -> Result<Reply, TestError>
    requires { IsOf host.now session.old }
    ensures { IsSame session.old session.new }
{
    retry!(Some(reply) = replied(rt, alloc, host, session, step)?)
}

/// Returns the index of the user's session.
fn place_of(case: &Case<'_>, user: Uid) -> usize {
    if user == case.first { 0 } else { 1 }
}

/// Makes a call of the session at this index, and checks that it has the reply of the step on its own.
fn check_call<R: Wait>(
    rt: &R,
    alloc: Global,
    host: &SharedHost<ByPolicy>,
    sessions: &mut Vec<Session>,
    place: usize,
    step: &PlainStep,
    reply: &Reply,
) -> Result<(), TestError>
    requires { All (IsOf host.now) sessions.old.items }
    ensures { All (IsOf host.now) sessions.new.items }
{
    if place >= sessions.len() {
        return Err(TestError::Wrong("a session is missing"));
    }
    let answered = call(rt, alloc, host, &mut sessions[place], step)?;
    expect(answered == *reply, "a call has another reply")
}

/// Makes the scenario's steps in turn, each as a call of its user's session.
fn call_all<R: Wait>(
    rt: &R,
    case: &Case<'_>,
    host: &SharedHost<ByPolicy>,
    sessions: &mut Vec<Session>,
    made: &Made,
) -> Result<(), TestError>
    requires { All (IsOf host.now) sessions.old.items }
    ensures { All (IsOf host.now) sessions.new.items }
{
    let scenario = case.scenario;
    for (step, answer) in scenario.steps.iter().zip(made.replies.iter()) {
        let place = place_of(case, step.0);
        check_call(rt, case.alloc, host, sessions, place, &step.1, &answer.1)?;
    }
    Ok(())
}

/// Returns whether the entry is this step of the session at this index, with this reply.
fn is_of(entry: &Entry, place: usize, step: &(Uid, PlainStep), reply: &Reply) -> bool {
    entry.session == place && entry.uid == step.0 && entry.step == step.1 && entry.reply == *reply
}

/// Checks that the journal has only the scenario's steps with their replies.
fn check_journal(case: &Case<'_>, made: &Made, journal: &Journal) -> Result<(), TestError> {
    expect(
        journal.len() == made.replies.len(),
        "a refused call has an entry",
    )?;
    let scenario = case.scenario;
    for (place, step) in (0..made.replies.len()).zip(scenario.steps.iter()) {
        let (Some(entry), Some(answer)) = (journal.get(place), made.replies.get(place)) else {
            return Err(TestError::Wrong("an entry is missing"));
        };
        if !is_of(entry, place_of(case, step.0), &step, &answer.1) {
            return Err(TestError::Wrong("the journal has another entry"));
        }
    }
    Ok(())
}

/// Closes the shared host with all sessions, and returns the host and the journal.
fn close(
    host: SharedHost<ByPolicy>,
    sessions: Vec<Session>,
) -> Result<(Host<ByPolicy>, Journal), TestError>
    requires { All (IsOf host) sessions.items }
{
    let closed = host.close(sessions).ok();
    closed.ok_or(TestError::Wrong("a session is missing"))
}

/// Returns the host and the journal after the scenario's steps.
fn called<R: Wait>(
    rt: &R,
    case: &Case<'_>,
    made: &Made,
) -> Result<(Host<ByPolicy>, Journal), TestError> {
    let (host, mut sessions) = open(case)?;
    call_all(rt, case, &host, &mut sessions, made)?;
    close(host, sessions)
}

/// Checks that each call has the reply of the step without sessions, that a refused call has no journal entry, and that
/// users see the same of the host as of the one on which the steps were made without sessions.
pub fn check<R: Wait>(rt: &R, case: &Case<'_>, made: &Made) -> Result<(), TestError> {
    let (host, journal) = called(rt, case, made)?;
    check_journal(case, made, &journal)?;
    case.check_hosts(&host, &made.host, "calls leave another host")
}
