//! Makes every kind of step, lists of them, the laws of isolation on hosts, calls of a shared host, sessions in
//! threads, and runs of whole scenarios, with threads and without. After a refusal for lack of memory it checks that
//! nothing changed, and tries again. So a run in which allocations are refused prints what a run with ample memory
//! does, or ends with status 3 if it is refused again and again. The test named failures makes such runs.
#![tactic(auto)]

/// Tries a call until it succeeds, at most `TRIES` times, and returns its value. The error says that memory ran out.
macro_rules! retry {
    ($succeeds:ident($value:ident) = $tried:expr) => {{
        for _ in 0..crate::steps::TRIES {
            if let $succeeds($value) = $tried {
                return Ok($value);
            }
        }
        Err(test_kit::TestError::Memory)
    }};
}

mod laws;
mod lists;
mod scenarios;
mod shared;
mod steps;
mod texts;
mod threads;

use pid_blocks::Uid;
use scenario_runs::{Fault, Scenario, parse};
use scenarios::{EVERY_STEP, GROWING, LEAVING};
use std::alloc::Global;
use std::process::ExitCode;
use std::sync::Wait;
use std::thread::Threads;
use steps::{Case, Made, TRIES};
use test_kit::TestError;

/// Returns the scenario of the text.
fn parsed(alloc: Global, text: &str) -> Result<Scenario, TestError> {
    for _ in 0..TRIES {
        match parse(alloc, text.as_bytes()) {
            Ok(scenario) => return Ok(scenario),
            Err(Fault::Memory) => {}
            Err(_) => return Err(TestError::Wrong("a scenario has a fault")),
        }
    }
    Err(TestError::Memory)
}

/// Prints the replies.
fn print_replies<R: Print>(rt: &R, alloc: Global, made: &Made) -> Result<(), TestError> {
    let lines = texts::lines(alloc, made, &None)?;
    print!(rt; "{lines}")?;
    Ok(())
}

/// Prints that this way gave the same.
fn say<R: Print>(rt: &R, way: &str) -> Result<(), TestError> {
    println!(rt; "{way}: the same")?;
    Ok(())
}

/// Prints the replies to the steps, and makes the steps again in every other way.
fn check_made<R: Print + Threads + Wait + Sync>(
    rt: &R,
    case: &Case<'_>,
    made: &Made,
) -> Result<(), TestError> {
    print_replies(rt, case.alloc, made)?;
    lists::check(case)?;
    say(rt, "a list of steps")?;
    laws::check(case)?;
    say(rt, "two hosts")?;
    shared::check(rt, case, made)?;
    say(rt, "a shared host")?;
    threads::check(rt, case)?;
    say(rt, "sessions in threads")?;
    texts::check(rt, case, made)?;
    say(rt, "runs of the scenario")
}

/// Makes the steps of the scenario one after another, and then in every other way.
fn check<R: Print + AllocGlobal + Threads + Wait + Sync>(
    rt: &R,
    text: &str,
) -> Result<(), TestError> {
    let alloc = rt.alloc();
    let (first, second) = (Uid::new(1001)?, Uid::new(1002)?);
    let scenario = parsed(alloc, text)?;
    let case = Case {
        alloc,
        scenario: &scenario,
        first,
        second,
    };
    let made = steps::make_all(&case)?;
    check_made(rt, &case, &made)
}

fn main(rt: HostRuntime) -> ExitCode {
    for text in [EVERY_STEP, LEAVING, GROWING] {
        if let Err(trouble) = check(&rt, text) {
            let _ = eprintln!(&rt; "refusals: {trouble}");
            return ExitCode::from(trouble.status());
        }
    }
    ExitCode::SUCCESS
}
