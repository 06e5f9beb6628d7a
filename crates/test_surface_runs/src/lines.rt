//! The lines of replies: rendered, written in the order of steps, and grouped by user. The handlers of a scenario.

use crate::texts::{SPAWN_AND_LIST, scenario_of};
use pid_blocks::{Pid, Tid, Uid};
use requests::{Host, Reply, Step};
use scenario::{RunFault, RunOptions, bind, policies, render, run, run_threads};
use std::alloc::Global;
use std::sync::Wait;
use std::thread::Threads;
use stop_handlers::{ByPolicy, Handler, Policy};
use test_kit::{TestError, expect};
use trace_stop::Settings;
use visibility::run_list;

pub fn check<R: Print + Threads + Wait + Sync>(rt: &R, alloc: Global) -> Result<(), TestError> {
    replies_have_lines(alloc)?;
    lines_come_in_the_order_of_steps(alloc)?;
    lines_of_threads_are_grouped_by_user(rt, alloc)?;
    an_install_takes_a_handler(alloc)?;
    a_handler_without_an_install_is_a_mismatch(alloc)?;
    println!(rt; "lines: 5 checks passed")?;
    Ok(())
}

/// What a run of the scenario `SPAWN_AND_LIST` writes.
const ITS_LINES: &str = "\
1001 1 new 1000 100000
1002 1 new 2000 104000
1001 2 new 1001 100001
1001 3 pids 1000 1001
";

/// What it writes with a session for each user.
const ITS_LINES_BY_USER: &str = "\
1001 1 new 1000 100000
1001 2 new 1001 100001
1001 3 pids 1000 1001
1002 1 new 2000 104000
";

fn replies_have_lines(alloc: Global) -> Result<(), TestError> {
    let (first, second) = (Uid::new(1001)?, Uid::new(1002)?);
    let replies = [(first, Reply::Done), (second, Reply::Number(1))];
    let all = render(alloc, &replies, None)?;
    let is_whole = all.as_str() == "1001 1 ok\n1002 1 number 1\n";
    expect(is_whole, "replies have other lines")?;
    let own = render(alloc, &replies, Some(second))?;
    expect(
        own.as_str() == "1002 1 number 1\n",
        "a user has other lines",
    )
}

/// Checks that a run ended without a fault, and wrote this text.
fn check_run(ended: Result<(), RunFault>, text: &[u8], wanted: &str) -> Result<(), TestError> {
    match ended {
        Ok(()) => expect(text == wanted.as_bytes(), "a run writes other lines"),
        Err(RunFault::Memory) => Err(TestError::Memory),
        Err(_) => Err(TestError::Wrong("a run ends with a fault")),
    }
}

fn lines_come_in_the_order_of_steps(alloc: Global) -> Result<(), TestError> {
    let scenario = scenario_of(alloc, SPAWN_AND_LIST)?;
    for (user, wanted) in [
        (None, ITS_LINES),
        (Some(Uid::new(1002)?), "1002 1 new 2000 104000\n"),
    ] {
        let handlers: Vec<Handler<ByPolicy>> = Vec::new(alloc);
        let mut text = Vec::new(alloc);
        let ended = run(alloc, &scenario, handlers, RunOptions { user }, &mut text);
        check_run(ended, text.as_slice(), wanted)?;
    }
    Ok(())
}

fn lines_of_threads_are_grouped_by_user<R: Threads + Wait + Sync>(
    rt: &R,
    alloc: Global,
) -> Result<(), TestError> {
    let scenario = scenario_of(alloc, SPAWN_AND_LIST)?;
    let handlers: Vec<Handler<ByPolicy>> = Vec::new(alloc);
    let mut text = Vec::new(alloc);
    let options = RunOptions { user: None };
    let ended = run_threads(rt, alloc, &scenario, handlers, options, &mut text);
    check_run(ended, text.as_slice(), ITS_LINES_BY_USER)
}

/// Returns a list of one handler, whose policy declines each stop.
fn one_handler(alloc: Global) -> Result<Vec<Handler<ByPolicy>>, TestError> {
    let policy = Policy::new(&[])?;
    let mut handlers = Vec::new(alloc);
    handlers.push(Handler::new(policy, ByPolicy(policy)))?;
    Ok(handlers)
}

/// A process that installs a handler.
const SPAWN_AND_INSTALL: &str = r#"{"steps":[
{"user":1001,"op":"spawn"},
{"user":1001,"op":"install","caller":1000,"rules":[]}
]}"#;

/// Checks the replies to the steps of `SPAWN_AND_INSTALL`, made as one list on a new host.
fn check_replies(
    alloc: Global,
    steps: Vec<(Uid, Step<Handler<ByPolicy>>)>,
) -> Result<(), TestError> {
    let mut host = Host::new(alloc, Settings::standard())?;
    let replies = run_list(alloc, &mut host, steps)?;
    let (Some(pid), Some(tid)) = (Pid::new(1000), Tid::new(100000)) else {
        return Err(TestError::Wrong("a number is lost"));
    };
    let is_whole = replies.as_slice() == &[Reply::New { pid, tid }, Reply::Done][..];
    expect(is_whole, "a list of steps has other replies")
}

fn an_install_takes_a_handler(alloc: Global) -> Result<(), TestError> {
    let scenario = scenario_of(alloc, SPAWN_AND_INSTALL)?;
    let policies = policies(alloc, &scenario)?;
    let is_one = policies.as_slice() == &[Policy::new(&[])?][..];
    expect(is_one, "a scenario has other policies")?;
    match bind(alloc, &scenario, one_handler(alloc)?) {
        Ok(steps) => check_replies(alloc, steps),
        Err(RunFault::Memory) => Err(TestError::Memory),
        Err(_) => Err(TestError::Wrong("a handler is refused")),
    }
}

fn a_handler_without_an_install_is_a_mismatch(alloc: Global) -> Result<(), TestError> {
    let scenario = scenario_of(alloc, SPAWN_AND_LIST)?;
    match bind(alloc, &scenario, one_handler(alloc)?) {
        Err(RunFault::Mismatch) => Ok(()),
        Err(RunFault::Memory) => Err(TestError::Memory),
        _ => Err(TestError::Wrong("a handler without an install is taken")),
    }
}
