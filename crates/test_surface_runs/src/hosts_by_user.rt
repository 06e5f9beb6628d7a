//! A host for each user. The expected replies were worked out by hand from the manual pages.

use pid_blocks::Uid;
use std::alloc::Global;
use stop_handlers::ByPolicy;
use test_kit::{Row, TestError, expect, rows_of, step_in};
use trace_stop::Settings;
use user_hosts::{CopyRefusal, UserHosts};

pub fn check<R: Print>(rt: &R, alloc: Global) -> Result<(), TestError> {
    two_users_are_apart(alloc)?;
    a_copy_is_of_one_user(alloc)?;
    a_copy_is_of_all(alloc)?;
    println!(rt; "a host for each user: 3 checks passed")?;
    Ok(())
}

/// A debugger of each user. A number of the other user is a number that nobody has.
const TWO_USERS: &str = "\
1002: list 2000 -> error ESRCH 3
1001: spawn -> new 1000 100000
1002: spawn -> new 2000 104000
1001: spawn -> new 1001 100001
1002: ptrace 2000 PT_ATTACH 1001 -> error ESRCH 3
1001: ptrace 1000 PT_ATTACH 1001 -> ok
1002: wait4 2000 1001 -> error ECHILD 10
1001: wait4 1000 1001 -> status 1001 4479
1002: list 2000 -> pids 2000
1001: list 1000 -> pids 1000 1001
";

/// What the first user is answered after it.
const GOES_ON: &str = "\
1001: ptrace 1000 PT_CONTINUE 1001 -> ok
1001: list 1000 -> pids 1000 1001
";

fn new_hosts(alloc: Global) -> Result<UserHosts<ByPolicy>, TestError> {
    Ok(UserHosts::new(alloc, Settings::standard()))
}

fn make(alloc: Global, hosts: &mut UserHosts<ByPolicy>, line: &Row<'_>) -> Result<(), TestError> {
    let (user, step) = step_in(alloc, line.given, None)?;
    let reply = hosts.step(alloc, user, step.by_policy());
    line.check(alloc, &reply)
}

/// Makes the steps of a session, and checks each reply.
fn follow(alloc: Global, hosts: &mut UserHosts<ByPolicy>, text: &str) -> Result<(), TestError> {
    for line in rows_of(alloc, text)?.iter() {
        make(alloc, hosts, line)?;
    }
    Ok(())
}

fn two_users_are_apart(alloc: Global) -> Result<(), TestError> {
    let mut hosts = new_hosts(alloc)?;
    follow(alloc, &mut hosts, TWO_USERS)?;
    follow(alloc, &mut hosts, GOES_ON)
}

/// Copies one user, whose debugger goes on. To the other one the copy is as it was, with no process.
fn a_copy_is_of_one_user(alloc: Global) -> Result<(), TestError> {
    let (first, second) = (Uid::new(1001)?, Uid::new(1002)?);
    let mut hosts = new_hosts(alloc)?;
    follow(alloc, &mut hosts, TWO_USERS)?;
    let mut copy = new_hosts(alloc)?;
    expect(
        copy.copy_user(alloc, first, &hosts).is_ok(),
        "a user isn't copied",
    )?;
    expect(
        copy.view(alloc, first)? == hosts.view(alloc, first)?,
        "a copy shows something else",
    )?;
    expect(
        copy.view(alloc, second)?.processes.is_empty(),
        "another user is copied",
    )?;
    follow(alloc, &mut copy, GOES_ON)?;
    follow(alloc, &mut hosts, GOES_ON)?;
    a_copy_has_the_same_settings(alloc, first, &hosts)
}

fn a_copy_has_the_same_settings(
    alloc: Global,
    user: Uid,
    hosts: &UserHosts<ByPolicy>,
) -> Result<(), TestError> {
    let settings = Settings {
        kill_on_debugger_exit: !hosts.settings().kill_on_debugger_exit,
    };
    let mut other = UserHosts::new(alloc, settings);
    let copied = other.copy_user(alloc, user, hosts);
    expect(
        copied == Err(CopyRefusal::Settings),
        "a user is copied to other settings",
    )?;
    expect(
        other.view(alloc, user)?.processes.is_empty(),
        "a refused copy is there",
    )
}

/// Copies all users at once, also over hosts that have more.
fn a_copy_is_of_all(alloc: Global) -> Result<(), TestError> {
    let second = Uid::new(1002)?;
    let mut hosts = new_hosts(alloc)?;
    follow(alloc, &mut hosts, TWO_USERS)?;
    let mut copy = hosts.copy(alloc)?;
    follow(alloc, &mut copy, GOES_ON)?;
    copy.copy_from(alloc, &hosts)?;
    follow(alloc, &mut copy, GOES_ON)?;
    copy.copy_from(alloc, &new_hosts(alloc)?)?;
    expect(
        copy.view(alloc, second)?.processes.is_empty(),
        "a host is left",
    )?;
    follow(alloc, &mut copy, TWO_USERS)
}
