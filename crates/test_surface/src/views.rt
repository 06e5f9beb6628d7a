//! What users see of a host, part by part.

use pid_blocks::{Pid, Uid};
use std::alloc::Global;
use stop_handlers::Policy;
use test_kit::{TestError, expect, host_after, rows_of};
use trace_stop::Settings;
use visibility::{View, user_view};

pub fn check(rt: &impl Print, alloc: Global) -> Result<(), TestError> {
    a_user_sees_rows_of_its_own(alloc)?;
    another_user_sees_others(alloc)?;
    views_differ_in_what_they_show(alloc)?;
    println!(rt; "views: 3 checks passed")?;
    Ok(())
}

/// Two processes of the first user, which installs a policy, and one of the second.
const THREE_AND_A_POLICY: &str = "
spawn -> new 1000 100000
1002: spawn -> new 2000 104000
spawn -> new 1001 100001
install 1000 -> ok
";

/// Returns a user's view after the first `count` of these steps.
fn view_after(alloc: Global, count: usize, policy: &Policy, user: u32) -> Result<View, TestError> {
    let mut lines = rows_of(alloc, THREE_AND_A_POLICY)?;
    lines.truncate(count);
    let host = host_after(alloc, lines.as_slice(), Some(policy))?;
    Ok(user_view(alloc, &host, Uid::new(user)?)?)
}

/// Checks which processes and LWPs a view shows, and at which numbers the search for the next ones begins.
fn check_numbers(
    view: &View,
    pids: &[u32],
    tids: &[u32],
    cursors: (u32, u32),
) -> Result<(), TestError> {
    let is_own = view
        .processes
        .iter()
        .map(|p| p.pid.get())
        .eq(pids.iter().copied());
    expect(is_own, "a user sees other processes")?;
    let is_own = view
        .lwps
        .iter()
        .map(|l| l.tid.get())
        .eq(tids.iter().copied());
    expect(is_own, "a user sees other LWPs")?;
    let is_next = (view.pid_cursor, view.tid_cursor) == cursors;
    expect(is_next, "the next search begins elsewhere")
}

fn a_user_sees_rows_of_its_own(alloc: Global) -> Result<(), TestError> {
    let policy = Policy::new(&[])?;
    let view = view_after(alloc, 4, &policy, 1001)?;
    check_numbers(&view, &[1000, 1001], &[100000, 100001], (1002, 100002))?;
    let debugger = Pid::new(1000).ok_or(TestError::Wrong("a number is lost"))?;
    let is_own = view.handlers.as_slice() == &[(debugger, policy)][..];
    expect(is_own, "a user sees other policies")?;
    expect(
        view.settings == Settings::standard(),
        "a user sees other settings",
    )
}

fn another_user_sees_others(alloc: Global) -> Result<(), TestError> {
    let view = view_after(alloc, 4, &Policy::new(&[])?, 1002)?;
    check_numbers(&view, &[2000], &[104000], (2001, 104001))?;
    expect(
        view.handlers.is_empty(),
        "a user sees another user's policies",
    )
}

/// Compares views of one session, each with one step more than the one before.
fn views_differ_in_what_they_show(alloc: Global) -> Result<(), TestError> {
    let policy = Policy::new(&[])?;
    let alone = view_after(alloc, 1, &policy, 1001)?;
    let beside = view_after(alloc, 2, &policy, 1001)?;
    let two = view_after(alloc, 3, &policy, 1001)?;
    let installed = view_after(alloc, 4, &policy, 1001)?;
    expect(alone == beside, "a step of another user is seen")?;
    let is_seen = beside != two && two != installed;
    expect(is_seen, "a step of the user isn't seen")
}
