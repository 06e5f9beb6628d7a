//! One host, shared by two sessions. Each is in a thread of its own.

ghost use Rattle.std.specs.Prelude.{◌≡◌, [], ◌∷◌, IfSome};
ghost use Rattle.host_lock.specs.Sessions.{IsOf};

use crate::example_error::ExampleError;
use event_masks::Call;
use host_lock::{Answer, Journal, Session, SharedHost};
use pid_blocks::Uid;
use requests::{Act, Host, PlainStep, Reply, Request, Step};
use std::alloc::{AllocError, Global};
use std::io;
use std::sync::Wait;
use std::thread::{Threads, join};
use stop_handlers::{ByPolicy, Handler};
use trace_stop::Settings;
use wait4::Options;

/// A host, shared by a session of each of the users. None if memory ran out.
fn open_two(
    alloc: Global,
    host: Host<ByPolicy>,
    first: Uid,
    second: Uid,
) -> Option<(SharedHost<ByPolicy>, Session, Session)>
    ensures first { IfSome result (λ r. IsOf r.0 r.1) }
    ensures second { IfSome result (λ r. IsOf r.0 r.2) }
{
    let Ok((host, mut sessions)) = SharedHost::open(alloc, host, &[first, second]) else {
        return None;
    };
    let second = sessions.pop()?;
    let first = sessions.pop()?;
    Some((host, first, second))
}

fn both(alloc: Global, first: Session, second: Session) -> Option<Vec<Session>>
    ensures { IfSome result (λ v. v.items ≡ first ∷ second ∷ []) }
{
    let mut sessions = Vec::new(alloc);
    sessions.push(first).ok()?;
    sessions.push(second).ok()?;
    Some(sessions)
}

/// The host and the journal, once both sessions are handed in. None if memory ran out.
fn close_two(
    alloc: Global,
    host: SharedHost<ByPolicy>,
    first: Session,
    second: Session,
) -> Option<(Host<ByPolicy>, Journal)>
    requires first { IsOf host first }
    requires second { IsOf host second }
{
    let sessions = both(alloc, first, second)?;
    host.close(sessions).ok()
}

/// A session after its steps, with the replies.
#[derive(Drop)]
struct Worked {
    session: Session,
    replies: Vec<Reply>,
}

/// Makes the steps. None if memory ran out, or the session has made all its calls.
fn work<R: Wait>(
    rt: &R,
    alloc: Global,
    host: &SharedHost<ByPolicy>,
    mut session: Session,
    steps: Vec<Step<Handler<ByPolicy>>>,
) -> Option<Worked>
    requires { IsOf host.now session }
    ensures { IfSome result (λ w. IsOf host.now w.session) }
{
    let mut replies = Vec::new(alloc);
    for step in steps {
        let Answer::Reply(reply) = host.call(rt, alloc, &mut session, step) else {
            return None;
        };
        replies.push(reply).ok()?;
    }
    Some(Worked { session, replies })
}

/// Makes the steps of two sessions, each in a thread of its own.
fn work_beside<R: Threads + Wait + Sync>(
    rt: &R,
    alloc: Global,
    host: &SharedHost<ByPolicy>,
    first: (Session, Vec<Step<Handler<ByPolicy>>>),
    second: (Session, Vec<Step<Handler<ByPolicy>>>),
) -> (Option<Worked>, Option<Worked>)
    requires first { IsOf host.now first.0 }
    requires second { IsOf host.now second.0 }
    ensures first { IfSome result.0 (λ w. IsOf host.now w.session) }
    ensures second { IfSome result.1 (λ w. IsOf host.now w.session) }
{
    join(
        rt,
        || -> Option<Worked>
            requires { IsOf host.now first.0 }
            ensures { IfSome result (λ w. IsOf host.entry.now w.session) }
        { work(rt, alloc, host, first.0, first.1) },
        || -> Option<Worked>
            requires { IsOf host.now second.0 }
            ensures { IfSome result (λ w. IsOf host.entry.now w.session) }
        { work(rt, alloc, host, second.0, second.1) },
    )
}

/// Process 1000 attaches to process 1001, and waits for its stop.
fn attach() -> [PlainStep; 4] {
    let options = Options {
        untraced: false,
        continued: false,
    };
    [
        Step::Spawn,
        Step::Spawn,
        Step::ptrace(1000, Request::Attach, 1001, 0),
        Step::wait4(1000, -1, options),
    ]
}

/// Process 2000 forks.
fn fork() -> [PlainStep; 4] {
    [
        Step::Spawn,
        Step::turn(104000, Act::Enter(Call::Fork)),
        Step::turn(104000, Act::Leave),
        Step::list(2000),
    ]
}

/// The steps with a handler for each policy.
fn by_policy(
    alloc: Global,
    plain: &[PlainStep],
) -> Result<Vec<Step<Handler<ByPolicy>>>, AllocError> {
    let mut steps = Vec::new(alloc);
    for step in plain {
        steps.push(step.by_policy())?;
    }
    Ok(steps)
}

/// Returns the steps of the first session and of the second one. `None` if memory ran out.
fn steps(alloc: Global) -> Option<(Vec<Step<Handler<ByPolicy>>>, Vec<Step<Handler<ByPolicy>>>)> {
    let first = by_policy(alloc, &attach()).ok()?;
    let second = by_policy(alloc, &fork()).ok()?;
    Some((first, second))
}

/// Runs both sessions at the same time, each with its steps. None if memory ran out.
fn run_both<R: Threads + Wait + Sync>(
    rt: &R,
    alloc: Global,
    host: &SharedHost<ByPolicy>,
    first: Session,
    second: Session,
) -> Option<(Worked, Worked)>
    requires first { IsOf host.now first }
    requires second { IsOf host.now second }
    ensures first { IfSome result (λ r. IsOf host.now r.0.session) }
    ensures second { IfSome result (λ r. IsOf host.now r.1.session) }
{
    let (attach, fork) = steps(alloc)?;
    let (first, second) = work_beside(rt, alloc, host, (first, attach), (second, fork));
    Some((first?, second?))
}

/// Prints the replies of a session.
fn tell(rt: &impl Print, user: Uid, replies: &[Reply]) -> io::Result<()> {
    let user = user.get();
    for reply in replies {
        println!(rt; "user {user}: {reply}")?;
    }
    Ok(())
}

/// How many entries the journal has, once both sessions are handed in.
fn entries(
    alloc: Global,
    host: SharedHost<ByPolicy>,
    first: Session,
    second: Session,
) -> Result<usize, ExampleError>
    requires first { IsOf host first }
    requires second { IsOf host second }
{
    let closed = close_two(alloc, host, first, second);
    let (_host, journal) = closed.ok_or(ExampleError::Memory)?;
    Ok(journal.len())
}

/// Hands both sessions in, and prints their replies and how many entries the journal has.
fn finish(
    rt: &impl Print,
    alloc: Global,
    host: SharedHost<ByPolicy>,
    first: Worked,
    second: Worked,
) -> Result<(), ExampleError>
    requires first { IsOf host first.session }
    requires second { IsOf host second.session }
{
    let (one, other) = (first.session.uid(), second.session.uid());
    let len = entries(alloc, host, first.session, second.session)?;
    tell(rt, one, first.replies.as_slice())?;
    tell(rt, other, second.replies.as_slice())?;
    println!(rt; "the journal has {len} entries")?;
    Ok(())
}

/// Runs both sessions, and then tells what they leave.
fn run_and_finish<R: Print + Threads + Wait + Sync>(
    rt: &R,
    alloc: Global,
    host: SharedHost<ByPolicy>,
    first: Session,
    second: Session,
) -> Result<(), ExampleError>
    requires first { IsOf host first }
    requires second { IsOf host second }
{
    let ran = run_both(rt, alloc, &host, first, second);
    let (first, second) = ran.ok_or(ExampleError::Session)?;
    finish(rt, alloc, host, first, second)
}

/// Shares a host among a session of each of two users, which make their steps at the same time.
pub fn two_threads<R: Print + Threads + Wait + Sync>(
    rt: &R,
    alloc: Global,
) -> Result<(), ExampleError> {
    let (one, other) = (Uid::new(1001)?, Uid::new(1002)?);
    let host = Host::new(alloc, Settings::standard())?;
    let opened = open_two(alloc, host, one, other);
    let (host, first, second) = opened.ok_or(ExampleError::Memory)?;
    run_and_finish(rt, alloc, host, first, second)
}
