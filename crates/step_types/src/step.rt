//! The steps that users make.

ghost use Rattle.std.specs.Prelude.{◌≡◌};
ghost use Rattle.step_types.specs.Plain.{bare, caller_of, with_handler};

use crate::{Act, Options, Request};
use signals::Disposition;
use stop_handlers::{ByPolicy, Decider, Handler, Policy};

/// A step that a host makes for a user. `H` is what a debugger installs: a stop handler, or only its policy.
#[derive(Clone, Copy, Debug, PartialEq, Eq, Drop)]
pub enum Step<H> {
    /// A new process of the user, with one LWP.
    Spawn,
    /// A list of the user's processes. The caller is one of them.
    List {
        caller: u32,
    },
    /// sigaction(2).
    Sigaction {
        caller: u32,
        sig: u32,
        disposition: Disposition,
    },
    /// kill(2).
    Kill {
        caller: u32,
        which: i64,
        sig: u32,
    },
    /// wait4(2), as with WNOHANG.
    Wait4 {
        caller: u32,
        which: i64,
        options: Options,
    },
    /// Installs a stop handler of a debugger. It is asked after those that the debugger installed before.
    Install {
        caller: u32,
        handler: H,
    },
    /// Waits for any child. A trace stop goes to the debugger's handlers.
    Handle {
        caller: u32,
    },
    /// ptrace(2).
    Ptrace {
        caller: u32,
        request: Request,
        target: u32,
        arg: u32,
    },
    /// The turn of an LWP.
    Turn {
        tid: u32,
        act: Act,
    },
}

/// The kind of a step: its op in a scenario.
#[derive(Clone, Copy, Debug, PartialEq, Eq, Drop)]
pub enum StepKind {
    Spawn,
    List,
    Sigaction,
    Kill,
    Wait4,
    Install,
    Handle,
    Ptrace,
    Turn,
}

/// A step with its handler's policy in place of the handler.
pub type PlainStep = Step<Policy>;

impl<H> Step<H> {
    /// Returns the number of the process that makes the step. Spawns and turns have none.
    pub fn caller(&self) -> Option<u32>
        ensures { result ≡ caller_of (bare self.now) }
    {
        match *self {
            Step::Spawn | Step::Turn { .. } => None,
            Step::List { caller }
            | Step::Sigaction { caller, .. }
            | Step::Kill { caller, .. }
            | Step::Wait4 { caller, .. }
            | Step::Install { caller, .. }
            | Step::Handle { caller }
            | Step::Ptrace { caller, .. } => Some(caller),
        }
    }

    /// Returns the step, with `handler` in place of its own if it installs one. `None` if it installs one and no
    /// handler is given.
    pub fn with_handler<G: Drop>(&self, handler: Option<G>) -> Option<Step<G>>
        ensures { result ≡ with_handler handler self.now }
    {
        Some(match *self {
            Step::Spawn => Step::Spawn,
            Step::List { caller } => Step::List { caller },
            Step::Sigaction {
                caller,
                sig,
                disposition,
            } => Step::Sigaction {
                caller,
                sig,
                disposition,
            },
            Step::Kill { caller, which, sig } => Step::Kill { caller, which, sig },
            Step::Wait4 {
                caller,
                which,
                options,
            } => Step::Wait4 {
                caller,
                which,
                options,
            },
            Step::Install { caller, .. } => Step::Install {
                caller,
                handler: handler?,
            },
            Step::Handle { caller } => Step::Handle { caller },
            Step::Ptrace {
                caller,
                request,
                target,
                arg,
            } => Step::Ptrace {
                caller,
                request,
                target,
                arg,
            },
            Step::Turn { tid, act } => Step::Turn { tid, act },
        })
    }
}

impl<F: Decider + Send + Drop> Step<Handler<F>> {
    /// Returns the step with its handler's policy in place of the handler.
    pub fn plain(&self) -> PlainStep
        ensures { result ≡ self.now }
    {
        let policy = match self {
            Step::Install { handler, .. } => Some(handler.policy()),
            _ => None,
        };
        self.with_handler(policy).unwrap()
    }
}

impl Step<Policy> {
    /// Returns the step with a handler that answers by its policy.
    pub fn by_policy(&self) -> Step<Handler<ByPolicy>>
        ensures { result ≡ self.now }
    {
        let handler = match *self {
            Step::Install { handler, .. } => Some(Handler::new(handler, ByPolicy(handler))),
            _ => None,
        };
        self.with_handler(handler).unwrap()
    }
}
