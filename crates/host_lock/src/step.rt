//! Steps with their handlers in them or on the heap.

ghost use Rattle.std.specs.Prelude.{◌≡◌, List};
ghost use Rattle.stop_handlers.specs.declared.Rule.{Rule};
ghost use Rattle.step_types.specs.declared.step.Step.{Step};
ghost use Rattle.requests.specs.Hosts.{Steps};
ghost use Rattle.step_types.specs.Plain.{PlainStep, map_handler};
ghost use Rattle.host_lock.specs.Boxed.{map_same, own_step};
ghost use Rattle.std.proofs.Common.{refl, sym};

use pid_blocks::Uid;
use requests::{Host, PlainStep, Reply, Step};
use std::alloc::Global;
use stop_handlers::{Decider, Handler};

/// A step with its handler on the heap. It takes about a ninth of the memory, so it is handed on faster.
pub type BoxedStep<F> = Step<Box<Handler<F>>>;

/// A handler, in place or on the heap.
pub trait OwnHandler<F: Decider + Send + Drop>: Sized + Drop {
    /// The handler's policy.
    ghost policy: { Self → List Rule };

    /// The step with the handler's policy in place of the handler.
    ghost plain: { Step Self → PlainStep };

    /// Returns the handler.
    fn handler(&self) -> &Handler<F>
        ensures { result.now ≡ policy self.now };

    /// Returns the handler itself.
    fn into_handler(self) -> Handler<F>
        ensures { result ≡ policy self };

    ghost plain_is: { (s : Step Self) → plain s ≡ map_handler policy s };
}

impl<F: Decider + Send + Drop> OwnHandler<F> for Handler<F> {
    ghost policy = { λ h. h };

    ghost plain = { λ s. s };

    fn handler(&self) -> &Handler<F> {
        self
    }

    fn into_handler(self) -> Handler<F> {
        self
    }

    ghost plain_is = { λ s. sym (map_same s) };
}

impl<F: Decider + Send + Drop> OwnHandler<F> for Box<Handler<F>> {
    ghost policy = { λ b. b.value };

    ghost plain = { own_step };

    fn handler(&self) -> &Handler<F> {
        self.as_ref()
    }

    fn into_handler(self) -> Handler<F> {
        Box::into_inner(self)
    }

    ghost plain_is = { λ s. refl };
}

/// Returns the step with its handler's policy in place of the handler.
#[inline(always)]
pub(crate) fn plain<F: Decider + Send + Drop, H: OwnHandler<F>>(step: &Step<H>) -> PlainStep
    ensures { result ≡ H.plain step.now }
{
    let policy = match step {
        Step::Install { handler, .. } => Some(handler.handler().policy()),
        _ => None,
    };
    step.with_handler(policy).unwrap()
}

/// Makes the step on the host, as `Host::step` does. It isn't inlined, so that its reply is handed on in registers: the
/// copies of a reply cost more than a call.
#[inline(never)]
pub(crate) fn make<F: Decider + Send + Drop, H: OwnHandler<F>>(
    alloc: Global,
    user: Uid,
    step: Step<H>,
    host: &mut Host<F>,
) -> Reply
    ensures { Steps user (H.plain step) host.old host.new result }
{
    if let Some(reply) = host.step_without_handler(alloc, user, &step) {
        return reply;
    }
    let Step::Install { caller, handler } = step else {
        unreachable!()
    };
    let handler = handler.into_handler();
    host.step(alloc, user, Step::Install { caller, handler })
}
