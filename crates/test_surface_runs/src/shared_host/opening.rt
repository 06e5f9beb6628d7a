//! Opening, closing, and the journal between them. A call after a moment comes after it in the journal.

ghost use Rattle.std.specs.Prelude.{IfSome};
ghost use Rattle.host_lock.specs.Sessions.{IsOf};

use super::pairs::{ask, close_one, close_two, open_two};
use crate::hosts::{check_entry, new_host};
use host_lock::{Journal, MAX_CALLS, OpenRefusal, Session, SharedHost, budget_left};
use pid_blocks::Uid;
use requests::Host;
use std::alloc::Global;
use std::sync::Wait;
use stop_handlers::ByPolicy;
use test_kit::{Row, TestError, expect, follow, rows_of, step_in};

pub fn a_session_makes_4294967295_calls() -> Result<(), TestError> {
    expect(
        MAX_CALLS == 4294967295 && budget_left(4294967294) && !budget_left(4294967295),
        "a session makes more or fewer calls",
    )
}

/// Returns the host of a refused opening, and whether too many sessions were named.
fn came_back(
    opened: Result<(SharedHost<ByPolicy>, Vec<Session>), OpenRefusal<ByPolicy>>,
) -> Option<(Host<ByPolicy>, bool)> {
    match opened {
        Err(OpenRefusal::NoSessions(host)) => Some((host, false)),
        Err(OpenRefusal::TooMany(host)) => Some((host, true)),
        _ => None,
    }
}

/// A refused opening gives back the host with its process.
pub fn neither_none_nor_sixty_five_open_a_host(alloc: Global) -> Result<(), TestError> {
    let sixty_five = [Uid::new(1001)?; 65];
    for (users, too_many) in [(&sixty_five[..0], false), (&sixty_five[..], true)] {
        let mut host = new_host(alloc).ok_or(TestError::Memory)?;
        follow(alloc, &mut host, "spawn -> new 1000 100000")?;
        let opened = came_back(SharedHost::open(alloc, host, users));
        let (mut host, many) = opened.ok_or(TestError::Wrong("a host is opened"))?;
        follow(alloc, &mut host, "spawn -> new 1001 100001")?;
        expect(many == too_many, "a refusal has another reason")?;
    }
    Ok(())
}

/// Makes the calls in this order, each by its session, and checks the replies.
fn call_in_turn<R: Wait>(
    rt: &R,
    alloc: Global,
    host: &SharedHost<ByPolicy>,
    first: &mut Session,
    second: &mut Session,
    lines: &[Row<'_>],
    sessions: &[usize],
) -> Result<(), TestError>
    requires first { IsOf host.now first.old }
    requires second { IsOf host.now second.old }
    ensures first { IsOf host.now first.new }
    ensures second { IsOf host.now second.new }
{
    for (line, session) in lines.iter().zip(sessions.iter()) {
        let step = step_in(alloc, line.given, None)?.1.by_policy();
        let reply = if *session == 0 {
            ask(rt, alloc, host, first, step)
        } else {
            ask(rt, alloc, host, second, step)
        };
        let Some(reply) = reply else {
            return Err(TestError::Wrong("a session is spent"));
        };
        line.check(alloc, &reply)?;
    }
    Ok(())
}

/// Checks that the journal has these calls and no others.
fn check_journal(
    alloc: Global,
    journal: &Journal,
    lines: &[Row<'_>],
    sessions: &[usize],
) -> Result<(), TestError> {
    let count = lines.len();
    let is_whole = sessions.len() == count && journal.len() == count && !journal.is_empty();
    expect(is_whole, "the journal has more or fewer entries than calls")?;
    let is_past = journal.get(count).is_some();
    expect(!is_past, "the journal has an entry past its end")?;
    for (place, line) in lines.iter().enumerate() {
        let Some(entry) = journal.get(place) else {
            return Err(TestError::Wrong("an entry is missing"));
        };
        let is_own = sessions.get(place) == Some(&entry.session);
        expect(is_own, "an entry is of another session")?;
        check_entry(alloc, entry, line, None)?;
    }
    Ok(())
}

/// Returns whether the session is of this user, has this number, and has made so many calls.
fn is_shown(session: &Session, user: u32, number: usize, made: u32) -> bool {
    session.uid().get() == user && session.number() == number && session.calls_made() == made
}

/// Closes the host. `None` if only one of the two sessions closes it, both don't, or a session shows other calls.
fn close_in_turn(
    alloc: Global,
    host: SharedHost<ByPolicy>,
    first: Session,
    second: Session,
    users: (Uid, Uid),
    made: (u32, u32),
) -> Option<(Host<ByPolicy>, Journal)>
    requires first { IsOf host first }
    requires second { IsOf host second }
{
    let (host, first) = close_one(alloc, host, first)?;
    if !is_shown(&first, users.0.get(), 0, made.0) || !is_shown(&second, users.1.get(), 1, made.1) {
        return None;
    }
    close_two(alloc, host, first, second)
}

/// Shares a new host among a session of each of the users.
fn open_new(alloc: Global, users: (Uid, Uid)) -> Option<(SharedHost<ByPolicy>, Session, Session)>
    ensures first { IfSome result (λ r. IsOf r.0 r.1) }
    ensures second { IfSome result (λ r. IsOf r.0 r.2) }
{
    let host = new_host(alloc)?;
    open_two(alloc, host, users.0, users.1)
}

/// Makes these calls by two sessions of the users, checks the journal, and returns the host. Both sessions close it.
fn work_in_turn<R: Wait>(
    rt: &R,
    alloc: Global,
    users: (Uid, Uid),
    made: (u32, u32),
    lines: &[Row<'_>],
    sessions: &[usize],
) -> Result<Host<ByPolicy>, TestError> {
    let opened = open_new(alloc, users).ok_or(TestError::Memory)?;
    let (host, mut first, mut second) = opened;
    let (one, other) = (users.0.get(), users.1.get());
    let is_new = is_shown(&first, one, 0, 0) && is_shown(&second, other, 1, 0);
    expect(is_new, "a new session shows calls")?;
    call_in_turn(rt, alloc, &host, &mut first, &mut second, lines, sessions)?;
    let closed = close_in_turn(alloc, host, first, second, users, made);
    let (host, journal) = closed.ok_or(TestError::Wrong("the host isn't closed"))?;
    check_journal(alloc, &journal, lines, sessions)?;
    Ok(host)
}

const TWO: &str = "
spawn -> new 1000 100000
spawn -> new 1001 100001
";

pub fn a_user_may_have_two_sessions<R: Wait>(rt: &R, alloc: Global) -> Result<(), TestError> {
    let user = Uid::new(1001)?;
    let lines = rows_of(alloc, TWO)?;
    let users = (user, user);
    let _host = work_in_turn(rt, alloc, users, (1, 1), lines.as_slice(), &[0, 1])?;
    Ok(())
}

/// Three calls of the first session, with one of the second between them.
const FOUR: &str = "
spawn -> new 1000 100000
1002: spawn -> new 2000 104000
spawn -> new 1001 100001
list 1000 -> pids 1000 1001
";

/// Each user's next process after that.
const NEXT: &str = "
spawn -> new 1002 100002
1002: spawn -> new 2001 104001
";

pub fn a_host_waits_for_all_its_sessions<R: Wait>(rt: &R, alloc: Global) -> Result<(), TestError> {
    let users = (Uid::new(1001)?, Uid::new(1002)?);
    let lines = rows_of(alloc, FOUR)?;
    let sessions = [0, 1, 0, 0];
    let mut host = work_in_turn(rt, alloc, users, (3, 1), lines.as_slice(), &sessions)?;
    follow(alloc, &mut host, NEXT)
}

/// Makes the first lines in the first session, and then the others in the second one, once it has learned the moment of
/// the first.
fn call_in_order<R: Wait>(
    rt: &R,
    alloc: Global,
    host: &SharedHost<ByPolicy>,
    first: &mut Session,
    second: &mut Session,
    lines: (&[Row<'_>], &[Row<'_>]),
) -> Result<(), TestError>
    requires first { IsOf host.now first.old }
    requires second { IsOf host.now second.old }
    ensures first { IsOf host.now first.new }
    ensures second { IsOf host.now second.new }
{
    call_in_turn(rt, alloc, host, first, second, lines.0, &[0])?;
    let moment = host.moment(first);
    host.learn(second, moment);
    call_in_turn(rt, alloc, host, first, second, lines.1, &[1])
}

/// A call of the second session, which has learned the moment after the call of the first one.
const BOTH: &str = "
spawn -> new 1000 100000
1002: spawn -> new 2000 104000
";

pub fn a_call_stands_behind_the_moment_that_was_learned<R: Wait>(
    rt: &R,
    alloc: Global,
) -> Result<(), TestError> {
    let users = (Uid::new(1001)?, Uid::new(1002)?);
    let earlier = rows_of(alloc, "spawn -> new 1000 100000")?;
    let later = rows_of(alloc, "1002: spawn -> new 2000 104000")?;
    let opened = open_new(alloc, users).ok_or(TestError::Memory)?;
    let (host, mut first, mut second) = opened;
    let lines = (earlier.as_slice(), later.as_slice());
    call_in_order(rt, alloc, &host, &mut first, &mut second, lines)?;
    let closed = close_two(alloc, host, first, second);
    let (_host, journal) = closed.ok_or(TestError::Wrong("the host isn't closed"))?;
    let lines = rows_of(alloc, BOTH)?;
    check_journal(alloc, &journal, lines.as_slice(), &[0, 1])
}
