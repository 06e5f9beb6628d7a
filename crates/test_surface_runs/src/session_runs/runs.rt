//! Runs of scripts. The expected replies were worked out by hand from the manual pages.

use super::gates::{Meet, Open};
use super::scripts::{check_own, check_shared, spawn_each};
use crate::hosts::new_host;
use host_lock::Journal;
use pid_blocks::Uid;
use requests::Host;
use sessions::{Gate, RunRefusal, Transcript, run_sessions};
use std::alloc::Global;
use std::sync::Wait;
use std::thread::Threads;
use stop_handlers::ByPolicy;
use test_kit::{TestError, expect, follow};

/// The results of a run: the host, the journal of its calls, and the replies to each session.
type Left = (Host<ByPolicy>, Journal, Vec<Transcript>);

/// Runs a script of spawns for each of the users on the host.
fn run_on<G: Gate, R: Threads + Wait + Sync>(
    rt: &R,
    alloc: Global,
    host: Host<ByPolicy>,
    (users, count): (&[Uid], u32),
    gate: &G,
) -> Result<Left, RunRefusal> {
    let Some(scripts) = spawn_each(alloc, users, count) else {
        return Err(RunRefusal::Memory);
    };
    run_sessions(rt, alloc, host, scripts, gate)
}

/// Does the same on an unused host.
fn run<G: Gate, R: Threads + Wait + Sync>(
    rt: &R,
    alloc: Global,
    asked: (&[Uid], u32),
    gate: &G,
) -> Result<Left, RunRefusal> {
    let Some(host) = new_host(alloc) else {
        return Err(RunRefusal::Memory);
    };
    run_on(rt, alloc, host, asked, gate)
}

/// Does the same, where the run must not be refused.
fn run_to_end<G: Gate, R: Threads + Wait + Sync>(
    rt: &R,
    alloc: Global,
    asked: (&[Uid], u32),
    gate: &G,
) -> Result<Left, TestError> {
    let ran = run(rt, alloc, asked, gate).ok();
    ran.ok_or(TestError::Wrong("a run is refused"))
}

/// Runs two scripts of ten calls each, which meet at each call, and checks how many calls are of user 1001 and how many
/// of another.
fn meet<R: Threads + Wait + Sync>(
    rt: &R,
    alloc: Global,
    users: [Uid; 2],
    (first, others): (u64, u64),
) -> Result<Left, TestError> {
    let gate = Meet::new();
    let left = run_to_end(rt, alloc, (&users[..], 10), &gate)?;
    gate.check(first, others)?;
    let is_whole = left.1.len() == 20;
    expect(is_whole, "there are more or fewer entries than calls")?;
    Ok(left)
}

pub fn two_users_run_at_the_same_time<R: Threads + Wait + Sync>(
    rt: &R,
    alloc: Global,
) -> Result<(), TestError> {
    let users = [Uid::new(1001)?, Uid::new(1002)?];
    let (_host, _journal, transcripts) = meet(rt, alloc, users, (10, 10))?;
    check_own(alloc, transcripts.as_slice(), 2, 10)
}

pub fn two_scripts_of_a_user_run_at_the_same_time<R: Threads + Wait + Sync>(
    rt: &R,
    alloc: Global,
) -> Result<(), TestError> {
    let user = Uid::new(1001)?;
    let (_host, journal, transcripts) = meet(rt, alloc, [user, user], (20, 0))?;
    check_shared(alloc, &journal, transcripts.as_slice(), user, 10)
}

pub fn a_user_has_two_scripts<R: Threads + Wait + Sync>(
    rt: &R,
    alloc: Global,
) -> Result<(), TestError> {
    let user = Uid::new(1001)?;
    let (_host, journal, transcripts) = run_to_end(rt, alloc, (&[user, user], 1), &Open)?;
    check_shared(alloc, &journal, transcripts.as_slice(), user, 1)
}

pub fn sixty_five_scripts_are_too_many<R: Threads + Wait + Sync>(
    rt: &R,
    alloc: Global,
) -> Result<(), TestError> {
    let users = [Uid::new(1001)?; 65];
    let run = run(rt, alloc, (&users[..], 1), &Open);
    expect(matches!(&run, Err(RunRefusal::TooMany)), "65 scripts run")
}

/// A run of no scripts returns the host as it was, with one process.
pub fn no_script_does_nothing<R: Threads + Wait + Sync>(
    rt: &R,
    alloc: Global,
) -> Result<(), TestError> {
    let mut host = new_host(alloc).ok_or(TestError::Memory)?;
    follow(alloc, &mut host, "spawn -> new 1000 100000")?;
    let ran = run_on(rt, alloc, host, (&[], 1), &Open).ok();
    let (mut host, journal, transcripts) = ran.ok_or(TestError::Wrong("a run is refused"))?;
    let is_empty = journal.is_empty() && transcripts.is_empty();
    expect(is_empty, "a run of no scripts has results")?;
    follow(alloc, &mut host, "spawn -> new 1001 100001")
}

/// Returns all 64 users.
fn all_users(alloc: Global) -> Option<Vec<Uid>> {
    let mut users = Vec::new(alloc);
    for slot in 0u32..64 {
        users.push(Uid::new(1001 + slot).ok()?).ok()?;
    }
    Some(users)
}

pub fn sixty_four_users_make_a_hundred_calls_each<R: Threads + Wait + Sync>(
    rt: &R,
    alloc: Global,
) -> Result<(), TestError> {
    let users = all_users(alloc).ok_or(TestError::Memory)?;
    let (_host, journal, transcripts) = run_to_end(rt, alloc, (users.as_slice(), 100), &Open)?;
    let is_whole = journal.len() == 6400;
    expect(is_whole, "there are more or fewer entries than calls")?;
    check_own(alloc, transcripts.as_slice(), 64, 100)
}
