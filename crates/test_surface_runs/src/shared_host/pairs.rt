//! Two sessions on one host.

ghost use Rattle.std.specs.Prelude.{◌≡◌, IfSome};
ghost use Rattle.host_lock.specs.Sessions.{IsOf, IsSame};

use host_lock::{Answer, CloseRefusal, Journal, Session, SharedHost};
use pid_blocks::Uid;
use requests::{Host, Reply, Step};
use std::alloc::Global;
use std::sync::Wait;
use std::thread::{Threads, join};
use stop_handlers::{ByPolicy, Handler};

/// Makes one call of the session. `None` if it has made all its calls.
pub fn ask<R: Wait>(
    rt: &R,
    alloc: Global,
    host: &SharedHost<ByPolicy>,
    session: &mut Session,
    step: Step<Handler<ByPolicy>>,
) -> Option<Reply>
    requires { IsOf host.now session.old }
    ensures { IsSame session.old session.new }
{
    match host.call(rt, alloc, session, step) {
        Answer::Reply(reply) => Some(reply),
        Answer::Spent => None,
    }
}

/// Shares the host among a session of each of the users.
pub fn open_two(
    alloc: Global,
    host: Host<ByPolicy>,
    first: Uid,
    second: Uid,
) -> Option<(SharedHost<ByPolicy>, Session, Session)>
    ensures first { IfSome result (λ r. IsOf r.0 r.1) }
    ensures second { IfSome result (λ r. IsOf r.0 r.2) }
{
    let Ok((host, mut sessions)) = SharedHost::open(alloc, host, &[first, second]) else {
        return None;
    };
    let second = sessions.pop()?;
    let first = sessions.pop()?;
    Some((host, first, second))
}

/// Returns the host and the journal for both sessions.
pub fn close_two(
    alloc: Global,
    host: SharedHost<ByPolicy>,
    first: Session,
    second: Session,
) -> Option<(Host<ByPolicy>, Journal)>
    requires first { IsOf host first }
    requires second { IsOf host second }
{
    let sessions = vec![in alloc; first, second].ok()?;
    host.close(sessions).ok()
}

/// Tries to close the host with only one of its two sessions, and returns the host and this session.
pub fn close_one(
    alloc: Global,
    host: SharedHost<ByPolicy>,
    session: Session,
) -> Option<(SharedHost<ByPolicy>, Session)>
    requires { IsOf host session }
    ensures { IfSome result (λ r. (r.0 ≡ host) × (r.1 ≡ session)) }
{
    let sessions = vec![in alloc; session].ok()?;
    let Err(CloseRefusal::Missing(host, mut sessions)) = host.close(sessions) else {
        return None;
    };
    if sessions.len() > 1 {
        return None;
    }
    Some((host, sessions.pop()?))
}

/// A session after its steps, with the replies.
#[derive(Drop)]
struct Worked {
    session: Session,
    replies: Vec<Reply>,
}

/// Makes the steps. `None` if memory or the calls ran out.
fn work<R: Wait>(
    rt: &R,
    alloc: Global,
    host: &SharedHost<ByPolicy>,
    mut session: Session,
    steps: Vec<Step<Handler<ByPolicy>>>,
) -> Option<Worked>
    requires { IsOf host.now session }
    ensures { IfSome result (λ w. IsOf host.now w.session) }
{
    let mut replies = Vec::new(alloc);
    for step in steps {
        let reply = ask(rt, alloc, host, &mut session, step)?;
        replies.push(reply).ok()?;
    }
    Some(Worked { session, replies })
}

/// Makes the steps of two sessions, each in a thread of its own.
fn work_beside<R: Threads + Wait + Sync>(
    rt: &R,
    alloc: Global,
    host: &SharedHost<ByPolicy>,
    first: (Session, Vec<Step<Handler<ByPolicy>>>),
    second: (Session, Vec<Step<Handler<ByPolicy>>>),
) -> (Option<Worked>, Option<Worked>)
    requires first { IsOf host.now first.0 }
    requires second { IsOf host.now second.0 }
    ensures first { IfSome result.0 (λ w. IsOf host.now w.session) }
    ensures second { IfSome result.1 (λ w. IsOf host.now w.session) }
{
    join(
        rt,
        || -> Option<Worked>
            requires { IsOf host.now first.0 }
            ensures { IfSome result (λ w. IsOf host.entry.now w.session) }
        { work(rt, alloc, host, first.0, first.1) },
        || -> Option<Worked>
            requires { IsOf host.now second.0 }
            ensures { IfSome result (λ w. IsOf host.entry.now w.session) }
        { work(rt, alloc, host, second.0, second.1) },
    )
}

/// The journal, and the replies to each of two sessions.
#[derive(Drop)]
pub struct Left {
    pub journal: Journal,
    pub first: Vec<Reply>,
    pub second: Vec<Reply>,
}

/// Makes the steps of two users on the host, in threads of their own, and closes it with both sessions.
pub fn run_beside<R: Threads + Wait + Sync>(
    rt: &R,
    alloc: Global,
    host: Host<ByPolicy>,
    users: (Uid, Uid),
    (mine, theirs): (Vec<Step<Handler<ByPolicy>>>, Vec<Step<Handler<ByPolicy>>>),
) -> Option<Left> {
    let (host, first, second) = open_two(alloc, host, users.0, users.1)?;
    let (first, second) = work_beside(rt, alloc, &host, (first, mine), (second, theirs));
    let (first, second) = (first?, second?);
    let (_host, journal) = close_two(alloc, host, first.session, second.session)?;
    Some(Left {
        journal,
        first: first.replies,
        second: second.replies,
    })
}
