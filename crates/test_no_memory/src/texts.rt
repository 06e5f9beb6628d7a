//! Runs of a whole scenario.

use crate::lists::handlers;
use crate::steps::{Case, Made, room};
use pid_blocks::Uid;
use scenario::run_threads;
use scenario_runs::{RunFault, RunOptions, render, run};
use std::alloc::Global;
use std::sync::Wait;
use std::thread::Threads;
use stop_handlers::{ByPolicy, Handler};
use test_kit::TestError;

/// Room for every text, in bytes.
const ROOM: usize = 16384;

/// Returns whether a run succeeded. Checks that it then wrote the whole text, and that a refused run wrote nothing.
fn is_done(ended: Result<(), RunFault>, written: &[u8], text: &[u8]) -> Result<bool, TestError> {
    match ended {
        Ok(()) if written == text => Ok(true),
        Ok(()) => Err(TestError::Wrong("a run has another text")),
        Err(RunFault::Memory | RunFault::Start) if written.is_empty() => Ok(false),
        Err(RunFault::Memory | RunFault::Start) => Err(TestError::Wrong(
            "a refused run has written",
        )),
        Err(RunFault::Write) => Err(TestError::Wrong("a writer has no room")),
        Err(RunFault::Mismatch) => Err(TestError::Wrong("the handlers are others")),
    }
}

/// The lines of one run: those of this user or of all users, with threads or without.
#[derive(Drop)]
struct UserStep {
    user: Option<Uid>,
    threads: bool,
}

/// Runs the scenario with threads or without.
fn run_into<R: Threads + Wait + Sync>(
    rt: &R,
    case: &Case<'_>,
    handlers: Vec<Handler<ByPolicy>>,
    asked: &UserStep,
    writer: &mut Vec<u8>,
) -> Result<(), RunFault> {
    let options = RunOptions { user: asked.user };
    if asked.threads {
        run_threads(rt, case.alloc, case.scenario, handlers, options, writer)
    } else {
        run(case.alloc, case.scenario, handlers, options, writer)
    }
}

/// Returns whether a run succeeded, and checks that it then wrote the text.
fn is_run<R: Threads + Wait + Sync>(
    rt: &R,
    case: &Case<'_>,
    text: &[u8],
    asked: &UserStep,
) -> Result<bool, TestError> {
    let mut writer = room(case.alloc, ROOM)?;
    let handlers = handlers(case)?;
    let ended = run_into(rt, case, handlers, asked, &mut writer);
    is_done(ended, writer.as_slice(), text)
}

/// Checks that a run writes the text, and retries while it is refused.
fn check_text<R: Threads + Wait + Sync>(
    rt: &R,
    case: &Case<'_>,
    text: &[u8],
    asked: &UserStep,
) -> Result<(), TestError> {
    retry!(Some(done) = is_run(rt, case, text, asked)?.then_some(()))
}

/// Returns the lines of the replies to the user, or to all users.
pub fn lines(alloc: Global, made: &Made, user: &Option<Uid>) -> Result<String, TestError> {
    retry!(Ok(lines) = render(alloc, made.replies.as_slice(), *user))
}

/// Checks that a run with or without threads writes the lines of the replies to the user, or to all users.
fn check_user<R: Threads + Wait + Sync>(
    rt: &R,
    case: &Case<'_>,
    made: &Made,
    user: Option<Uid>,
    threads: bool,
) -> Result<(), TestError> {
    let text = lines(case.alloc, made, &user)?;
    let asked = UserStep { user, threads };
    check_text(rt, case, text.as_bytes(), &asked)
}

/// Checks that runs write the lines of the replies, and that refused runs write nothing.
pub fn check<R: Threads + Wait + Sync>(
    rt: &R,
    case: &Case<'_>,
    made: &Made,
) -> Result<(), TestError> {
    check_user(rt, case, made, None, false)?;
    check_user(rt, case, made, Some(case.first), true)?;
    check_user(rt, case, made, Some(case.second), true)
}
