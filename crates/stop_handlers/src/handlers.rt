//! Handlers of trace stops.
//!
//! A handler keeps a policy and a decider, mostly a closure, which answers about stops. It also keeps the fact
//! that the decider may be asked about every stop and then answers as the policy decides. The code that makes
//! a handler proves this fact.
//!
//! A closure `|view: &StopView| ..` can become a handler if it may be called on every stop, its answer depends on
//! only the stop, and this answer is the policy's. It can call `Policy::decide` on a copy of the policy, or decide
//! by cases of its own. It is passed as `ByClosure(closure)`. Some closures can't become a handler: those that
//! answer anything else for some stop, and those whose answer depends on something that others change, such as a
//! counter. For them, what `Handler::new` requires can't be proved.
ghost use Rattle.std.specs.Prelude.{⊤, ◌≡◌};
ghost use Rattle.std.specs.Fn.{FnReturnsAt};
ghost use Rattle.stop_handlers.specs.Decide.{decide};
ghost use Rattle.stop_handlers.specs.Handlers.{Obeys};
ghost use Rattle.stop_handlers.specs.declared.Decision.{Decision};
ghost use Rattle.stop_handlers.specs.declared.StopView.{StopView};

use crate::{Decision, Policy, StopView};
use std::marker::Model;

/// What answers about stops: a closure or a policy.
pub trait Decider {
    /// It may be asked about every stop.
    ghost can_ask: { Self → Type 0 };

    /// It may give this answer about the stop.
    ghost gives: { Self → StopView → Decision → Type 0 };

    /// Returns the answer about a stop.
    fn answer(&self, view: &StopView) -> Decision
        requires { can_ask self.now }
        ensures { gives self.now view.now result };
}

/// Answers as a closure does.
#[derive(Drop)]
pub struct ByClosure<C>(pub C);

impl<C: Fn(&StopView) -> Decision> Decider for ByClosure<C> {
    ghost can_ask = { λ c. C.IsAlwaysCallable c.0 };

    ghost gives = { λ c view decision. FnReturnsAt C.Fn c.0 view decision };

    fn answer(&self, view: &StopView) -> Decision {
        (self.0)(view)
    }
}

/// Answers as a policy decides.
#[derive(Drop)]
pub struct ByPolicy(pub Policy);

impl Decider for ByPolicy {
    ghost can_ask = { λ _. ⊤ };

    ghost gives = { λ p view decision. decision ≡ decide p.0 view };

    fn answer(&self, view: &StopView) -> Decision {
        self.0.decide(view)
    }
}

/// A policy with a decider that answers as it decides. Contracts see a handler as its policy's rules.
#[derive(Drop)]
pub struct Handler<F: Decider + Send + Drop> {
    policy: Policy,
    decider: F,
}

impl<F: Decider + Send + Drop> Model for Handler<F> {
    ghost use Rattle.std.specs.Prelude.{List};
    ghost use Rattle.stop_handlers.specs.Handlers.{Obeys};
    ghost use Rattle.stop_handlers.specs.declared.Rule.{Rule};

    ghost Value = { List Rule };

    ghost view = { λ h. h.policy };

    ghost invariant = { λ h. F.can_ask h.decider × Obeys (F.gives h.decider) h.policy };
}

impl<F: Decider + Send + Drop> Handler<F> {
    /// Returns the handler of a decider that may be asked about every stop, and whose answers are all the policy's.
    pub fn new(policy: Policy, decider: F) -> Handler<F>
        requires askable { F.can_ask decider }
        requires obeys { Obeys (F.gives decider) policy }
        ensures { result ≡ policy }
    {
        Handler { policy, decider }
    }

    /// Returns the policy that the handler follows.
    pub fn policy(&self) -> Policy
        ensures { result ≡ self.now }
    {
        self.policy
    }

    /// Returns the decider's answer about the stop, which is what the policy decides.
    pub fn ask(&self, view: &StopView) -> Decision
        ensures { result ≡ decide self.now view.now }
    {
        self.decider.answer(view)
    }
}
