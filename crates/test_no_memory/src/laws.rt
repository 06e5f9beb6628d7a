//! The laws of isolation, on hosts. A step or a list is refused if memory runs out.

ghost use Rattle.std.specs.Prelude.{◌≡◌};

use crate::lists::bound;
use crate::steps::{Case, Seen, new_host};
use pid_blocks::Uid;
use requests::{Host, Reply, Step};
use std::alloc::Global;
use stop_handlers::ByPolicy;
use test_kit::{TestError, expect};
use trace_stop::Settings;
use visibility::laws::{foreign_number, one_step, other_step, two_lists};

/// A law of one step in two hosts.
#[derive(Clone, Copy)]
enum Law {
    OneStep,
    ForeignNumber,
}

impl Law {
    /// Makes a step in both hosts, and returns the replies.
    fn replies(
        self,
        alloc: Global,
        first: &mut Host<ByPolicy>,
        second: &mut Host<ByPolicy>,
        user: Uid,
    ) -> (Reply, Reply)
        requires { second.old ≡ first.old }
    {
        match self {
            Law::OneStep => one_step(alloc, first, second, user, Step::Spawn, Step::Spawn),
            Law::ForeignNumber => {
                foreign_number(alloc, first, second, user, Step::Spawn, Step::Spawn)
            }
        }
    }
}

/// Checks that the host is as before, if it refused a step.
fn check_refused(
    case: &Case<'_>,
    before: &Seen,
    host: &Host<ByPolicy>,
    is_refused: bool,
) -> Result<(), TestError> {
    if !is_refused {
        return Ok(());
    }
    before.is_still(case, host, "a refused step changed a host")
}

/// Returns whether neither host refused, and checks that their replies are then the same.
fn is_answered(reply: &Reply, other: &Reply) -> Result<bool, TestError> {
    if reply.is_memory() || other.is_memory() {
        return Ok(false);
    }
    expect(reply == other, "two hosts answer differently")?;
    Ok(true)
}

/// Returns whether two unused hosts make a step, and checks that a host that refuses is as before.
fn is_made(
    case: &Case<'_>,
    before: &Seen,
    settings: Settings,
    law: Law,
) -> Result<bool, TestError> {
    let mut first = new_host(case.alloc, settings)?;
    let mut second = new_host(case.alloc, settings)?;
    let (reply, other) = law.replies(case.alloc, &mut first, &mut second, case.first);
    check_refused(case, before, &first, reply.is_memory())?;
    check_refused(case, before, &second, other.is_memory())?;
    is_answered(&reply, &other)
}

/// Checks a law of one step, and retries while a host refuses it.
fn check_law(
    case: &Case<'_>,
    before: &Seen,
    settings: Settings,
    law: Law,
) -> Result<(), TestError> {
    retry!(Some(done) = is_made(case, before, settings, law)?.then_some(()))
}

/// Returns whether the host makes a step of the second user, and checks that it is as before if it refuses.
fn is_made_beside(
    case: &Case<'_>,
    before: &Seen,
    host: &mut Host<ByPolicy>,
) -> Result<bool, TestError> {
    if case.first == case.second {
        return Err(TestError::Wrong("two users are one"));
    }
    let reply = other_step(case.alloc, host, case.first, case.second, Step::Spawn);
    check_refused(case, before, host, reply.is_memory())?;
    Ok(!reply.is_memory())
}

/// Checks a step of the second user, and retries while it is refused.
fn check_other_step(
    case: &Case<'_>,
    before: &Seen,
    host: &mut Host<ByPolicy>,
) -> Result<(), TestError> {
    retry!(Some(done) = is_made_beside(case, before, host)?.then_some(()))
}

/// Returns whether no step of both lists was refused, and checks that their replies are then the same.
fn agree(replies: &[Reply], others: &[Reply]) -> Result<bool, TestError> {
    let mut all = replies.iter().chain(others.iter());
    if all.any(|reply| reply.is_memory()) {
        return Ok(false);
    }
    expect(replies == others, "two lists have different replies")?;
    Ok(true)
}

/// Returns whether two unused hosts make all of the scenario's steps, and checks that refused lists change neither.
fn are_lists_made(case: &Case<'_>, before: &Seen, settings: Settings) -> Result<bool, TestError> {
    let steps = bound(case)?;
    let others = bound(case)?;
    let mut first = new_host(case.alloc, settings)?;
    let mut second = new_host(case.alloc, settings)?;
    let ran = two_lists(
        case.alloc,
        &mut first,
        &mut second,
        case.first,
        steps,
        others,
    );
    if let Ok((replies, others)) = ran {
        return agree(replies.as_slice(), others.as_slice());
    }
    before.is_still(case, &first, "refused lists changed the first host")?;
    before.is_still(case, &second, "refused lists changed the second host")?;
    Ok(false)
}

/// Checks the scenario's steps on two hosts, and retries while they are refused.
fn check_two_lists(case: &Case<'_>, before: &Seen, settings: Settings) -> Result<(), TestError> {
    retry!(Some(done) = are_lists_made(case, before, settings)?.then_some(()))
}

/// Checks that refusals don't change the hosts, and that else two hosts give the same replies.
pub fn check(case: &Case<'_>) -> Result<(), TestError> {
    let scenario = case.scenario;
    let settings = scenario.settings;
    let mut host = new_host(case.alloc, settings)?;
    let before = case.see(&host)?;
    check_law(case, &before, settings, Law::OneStep)?;
    check_law(case, &before, settings, Law::ForeignNumber)?;
    check_other_step(case, &before, &mut host)?;
    check_two_lists(case, &before, settings)
}
