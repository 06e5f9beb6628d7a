//! Two users, each in a thread of its own: spawns, and a debugger with its handler.

use super::pairs::{Left, run_beside};
use crate::hosts::{check_lines, new_host, spawns, steps_of};
use pid_blocks::Uid;
use requests::Host;
use std::alloc::Global;
use std::sync::Wait;
use std::thread::Threads;
use stop_handlers::{ByPolicy, Policy};
use test_kit::{FORK_STOPS, Row, TestError, check_replies, expect, follow, fork_policy, rows_of};

/// Checks that the replies to both users and their entries in the journal are their lines.
fn check_left(
    alloc: Global,
    left: &Left,
    mine: &[Row<'_>],
    theirs: &[Row<'_>],
    policy: Option<&Policy>,
) -> Result<(), TestError> {
    let is_whole = left.journal.len() == mine.len().saturating_add(theirs.len());
    expect(is_whole, "the journal has more or fewer entries than lines")?;
    check_replies(alloc, mine, left.first.as_slice())?;
    check_replies(alloc, theirs, left.second.as_slice())?;
    check_lines(alloc, &left.journal, 0, mine, policy)?;
    check_lines(alloc, &left.journal, 1, theirs, policy)
}

/// Makes the lines of the users 1001 and 1002, each in a thread of its own, on the host, and checks what is left.
fn check_beside<R: Threads + Wait + Sync>(
    rt: &R,
    alloc: Global,
    host: Host<ByPolicy>,
    (mine, theirs): (&[Row<'_>], &[Row<'_>]),
    policy: Option<&Policy>,
) -> Result<(), TestError> {
    let users = (Uid::new(1001)?, Uid::new(1002)?);
    let steps = (
        steps_of(alloc, mine, policy)?,
        steps_of(alloc, theirs, policy)?,
    );
    let Some(left) = run_beside(rt, alloc, host, users, steps) else {
        return Err(TestError::Wrong("nothing is left"));
    };
    check_left(alloc, &left, mine, theirs, policy)
}

pub fn two_threads_spawn<R: Threads + Wait + Sync>(rt: &R, alloc: Global) -> Result<(), TestError> {
    let first = spawns(alloc, Uid::new(1001)?, 1000, 100000, 100)?;
    let second = spawns(alloc, Uid::new(1002)?, 2000, 104000, 100)?;
    let mine = rows_of(alloc, first.as_str())?;
    let theirs = rows_of(alloc, second.as_str())?;
    let host = new_host(alloc).ok_or(TestError::Memory)?;
    check_beside(rt, alloc, host, (mine.as_slice(), theirs.as_slice()), None)
}

/// The first user has two processes. The second user's process is made between them.
const THREE: &str = "
spawn -> new 1000 100000
1002: spawn -> new 2000 104000
spawn -> new 1001 100001
";

/// The first user's debugger, before the stops of a fork.
const INSTALLED: &str = "
ptrace 1000 PT_ATTACH 1001 -> ok
wait4 1000 -1 -> status 1001 4479
install 1000 -> ok";

pub fn a_debugger_works_beside_another_user<R: Threads + Wait + Sync>(
    rt: &R,
    alloc: Global,
) -> Result<(), TestError> {
    let debug = format!(in alloc; "{INSTALLED}{FORK_STOPS}")?;
    let spawned = spawns(alloc, Uid::new(1002)?, 2001, 104001, 100)?;
    let mine = rows_of(alloc, debug.as_str())?;
    let theirs = rows_of(alloc, spawned.as_str())?;
    let mut host = new_host(alloc).ok_or(TestError::Memory)?;
    follow(alloc, &mut host, THREE)?;
    let lines = (mine.as_slice(), theirs.as_slice());
    check_beside(rt, alloc, host, lines, Some(&fork_policy()?))
}
