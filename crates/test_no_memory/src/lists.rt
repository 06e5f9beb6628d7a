//! Lists of steps. A list or a step is refused if memory runs out.

use crate::steps::{Case, TRIES, answer, new_host};
use pid_blocks::Uid;
use requests::{Host, PlainStep, Reply, Step};
use scenario_runs::{RunFault, bind, handlers_from, policies};
use std::alloc::Global;
use stop_handlers::{ByPolicy, Handler, Policy};
use test_kit::{TestError, expect};
use visibility::run_list;

/// Returns a handler for each policy of the scenario, or `None` if that is refused.
fn policy_handlers(case: &Case<'_>) -> Option<Vec<Handler<ByPolicy>>> {
    let policies = policies(case.alloc, case.scenario).ok()?;
    let make = |policy: Policy| ByPolicy(policy);
    handlers_from(case.alloc, policies.as_slice(), make).ok()
}

/// Does the same, and retries while that is refused.
pub fn handlers(case: &Case<'_>) -> Result<Vec<Handler<ByPolicy>>, TestError> {
    retry!(Some(handlers) = policy_handlers(case))
}

/// Returns the steps of the scenario, with their handlers.
pub fn bound(case: &Case<'_>) -> Result<Vec<(Uid, Step<Handler<ByPolicy>>)>, TestError> {
    for _ in 0..TRIES {
        let handlers = handlers(case)?;
        match bind(case.alloc, case.scenario, handlers) {
            Ok(steps) => return Ok(steps),
            Err(RunFault::Memory) => {}
            Err(_) => return Err(TestError::Wrong("the handlers are others")),
        }
    }
    Err(TestError::Memory)
}

/// Checks that the step has this reply, unless the list refused it.
fn check_reply(
    alloc: Global,
    host: &mut Host<ByPolicy>,
    user: Uid,
    step: &PlainStep,
    reply: &Reply,
) -> Result<(), TestError> {
    if reply.is_memory() {
        return Ok(());
    }
    let other = answer(alloc, host, user, step)?;
    expect(other == *reply, "a list has other replies")
}

/// Checks that the steps that weren't refused have the same replies when they are made one after another.
fn check_replies(
    case: &Case<'_>,
    host: &mut Host<ByPolicy>,
    replies: &[Reply],
) -> Result<(), TestError> {
    let is_whole = replies.len() == case.scenario.bare_steps().len();
    expect(is_whole, "a list has not a reply for each step")?;
    let scenario = case.scenario;
    for (step, reply) in scenario.steps.iter().zip(replies.iter()) {
        check_reply(case.alloc, host, step.0, &step.1, reply)?;
    }
    Ok(())
}

/// Makes the steps that weren't refused one after another on a new host. Checks that they have the same replies, and that
/// users see the same at the end.
fn check_answered(
    case: &Case<'_>,
    host: &Host<ByPolicy>,
    replies: &[Reply],
) -> Result<(), TestError> {
    let scenario = case.scenario;
    let mut other = new_host(case.alloc, scenario.settings)?;
    check_replies(case, &mut other, replies)?;
    case.check_hosts(host, &other, "a list leaves another host")
}

/// Makes the scenario's steps as a list, and returns the replies, or `None` if the list is refused.
fn ran(case: &Case<'_>, host: &mut Host<ByPolicy>) -> Result<Option<Vec<Reply>>, TestError> {
    let steps = bound(case)?;
    Ok(run_list(case.alloc, host, steps).ok())
}

/// Checks that a refused list doesn't change the host, and that else the replies are those of steps made one by one.
pub fn check(case: &Case<'_>) -> Result<(), TestError> {
    let scenario = case.scenario;
    let mut host = new_host(case.alloc, scenario.settings)?;
    let before = case.see(&host)?;
    for _ in 0..TRIES {
        if let Some(replies) = ran(case, &mut host)? {
            return check_answered(case, &host, replies.as_slice());
        }
        before.is_still(case, &host, "a refused list changed the host")?;
    }
    Err(TestError::Memory)
}
