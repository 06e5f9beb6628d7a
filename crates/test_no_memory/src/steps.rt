//! Steps made one after another. A step is refused if memory runs out.

ghost use Rattle.std.specs.Prelude.{◌≡◌, IfOk};
ghost use Rattle.requests.specs.Machine.{empty};

use pid_blocks::Uid;
use requests::{Act, Host, PlainStep, Reply, Request};
use scenario_runs::Scenario;
use std::alloc::Global;
use stop_handlers::ByPolicy;
use test_kit::{TestError, expect};
use trace_stop::Settings;
use visibility::{View, user_view};

/// The number of tries of a call while it is refused.
pub const TRIES: u32 = 30;

/// A scenario, and its two users.
#[derive(Clone, Copy, Drop)]
pub struct Case<'a> {
    pub alloc: Global,
    pub scenario: &'a Scenario,
    pub first: Uid,
    pub second: Uid,
}

/// Both users' views of a host.
#[derive(Drop)]
pub struct Seen {
    first: View,
    second: View,
}

impl Seen {
    /// Checks that the users still see the same of the host. The error has this name.
    pub fn is_still(
        &self,
        case: &Case<'_>,
        host: &Host<ByPolicy>,
        name: &'static str,
    ) -> Result<(), TestError> {
        let now = case.see(host)?;
        expect(self.first == now.first && self.second == now.second, name)
    }
}

/// Returns the user's view of the host.
fn view_of(alloc: Global, host: &Host<ByPolicy>, user: Uid) -> Result<View, TestError> {
    retry!(Ok(view) = user_view(alloc, host, user))
}

impl Case<'_> {
    /// Returns both users' views of the host.
    pub fn see(&self, host: &Host<ByPolicy>) -> Result<Seen, TestError> {
        let first = view_of(self.alloc, host, self.first)?;
        let second = view_of(self.alloc, host, self.second)?;
        Ok(Seen { first, second })
    }

    /// Checks that the users see the same of both hosts. The error has this name.
    pub fn check_hosts(
        &self,
        host: &Host<ByPolicy>,
        other: &Host<ByPolicy>,
        name: &'static str,
    ) -> Result<(), TestError> {
        self.see(host)?.is_still(self, other, name)
    }
}

/// Creates an unused host.
pub fn new_host(alloc: Global, settings: Settings) -> Result<Host<ByPolicy>, TestError>
    ensures { IfOk result (λ host. host ≡ empty settings) }
{
    retry!(Ok(host) = Host::new(alloc, settings))
}

/// Makes a step, and returns the reply, or `None` if it is refused.
fn replied(alloc: Global, host: &mut Host<ByPolicy>, user: Uid, step: &PlainStep) -> Option<Reply> {
    let reply = host.step(alloc, user, step.by_policy());
    if reply.is_memory() { None } else { Some(reply) }
}

/// Makes a step, retries while it is refused, and returns the reply.
pub fn answer(
    alloc: Global,
    host: &mut Host<ByPolicy>,
    user: Uid,
    step: &PlainStep,
) -> Result<Reply, TestError> {
    retry!(Some(reply) = replied(alloc, host, user, step))
}

/// Returns whether the step may take memory.
fn takes_memory(step: &PlainStep) -> bool {
    matches!(
        step,
        PlainStep::Spawn
            | PlainStep::List { .. }
            | PlainStep::Install { .. }
            | PlainStep::Ptrace {
                request: Request::GetLwpList,
                ..
            }
            | PlainStep::Turn {
                act: Act::Leave,
                ..
            }
    )
}

/// Does the same, and checks after each refusal that the step may take memory and that users see the same as before.
fn answer_kept(
    case: &Case<'_>,
    host: &mut Host<ByPolicy>,
    user: Uid,
    step: &PlainStep,
) -> Result<Reply, TestError> {
    let before = case.see(host)?;
    for _ in 0..TRIES {
        if let Some(reply) = replied(case.alloc, host, user, step) {
            return Ok(reply);
        }
        expect(takes_memory(step), "a step that takes no memory is refused")?;
        before.is_still(case, host, "a refused step changed the host")?;
    }
    Err(TestError::Memory)
}

/// A host after steps, and the replies to them.
#[derive(Drop)]
pub struct Made {
    pub host: Host<ByPolicy>,
    pub replies: Vec<(Uid, Reply)>,
}

/// Allocates room for `length` items.
pub fn room<T: Drop>(alloc: Global, length: usize) -> Result<Vec<T>, TestError> {
    retry!(Ok(room) = Vec::with_capacity(alloc, length))
}

/// Makes the steps of the scenario on a new host.
pub fn make_all(case: &Case<'_>) -> Result<Made, TestError> {
    let replies = room(case.alloc, case.scenario.bare_steps().len())?;
    let scenario = case.scenario;
    let host = new_host(case.alloc, scenario.settings)?;
    let mut made = Made { host, replies };
    for step in scenario.steps.iter() {
        let reply = answer_kept(case, &mut made.host, step.0, &step.1)?;
        made.replies.push((step.0, reply))?;
    }
    Ok(made)
}
