//! A host stepped by hand: a sandbox whose stop handler, a closure, kills a process that executes another program.

ghost use Rattle.stop_handlers.specs.Handlers.{Obeys};

use crate::example_error::ExampleError;
use event_masks::{Call, StopFlags};
use pid_blocks::Uid;
use requests::{Act, Host, Reply, Request, Step};
use std::alloc::Global;
use std::io;
use stop_handlers::{ByClosure, Decider, Decision, Handler, Policy, Rule, StopView};
use trace_stop::Settings;
use wait4::Options;

/// A wait without options.
const NONE: Options = Options {
    untraced: false,
    continued: false,
};

/// Makes one step of the user, and prints its reply.
fn make<F: Decider + Send + Drop>(
    rt: &impl Print,
    alloc: Global,
    host: &mut Host<F>,
    user: Uid,
    step: Step<Handler<F>>,
) -> io::Result<()> {
    let reply = host.step(alloc, user, step);
    println!(rt; "{reply}")
}

/// Tells what became of a stop.
fn tell(rt: &impl Print, reply: &Reply) -> io::Result<()> {
    match reply {
        Reply::Handled {
            pid,
            view,
            decision: Decision::Kill,
            ..
        } => {
            let pid = pid.get();
            let flags = view.flags;
            println!(rt; "process {pid} was killed at {flags:?}")
        }
        other => println!(rt; "{other}"),
    }
}

/// Process 1000 attaches to process 1001, waits for its stop, and leaves it to the handler from then on.
fn attach<F: Decider + Send + Drop>(
    rt: &impl Print,
    alloc: Global,
    host: &mut Host<F>,
    user: Uid,
    handler: Handler<F>,
) -> io::Result<()> {
    make(rt, alloc, host, user, Step::Spawn)?;
    make(rt, alloc, host, user, Step::Spawn)?;
    let attach = Step::ptrace(1000, Request::Attach, 1001, 0);
    make(rt, alloc, host, user, attach)?;
    make(rt, alloc, host, user, Step::wait4(1000, -1, NONE))?;
    make(rt, alloc, host, user, Step::install(1000, handler))?;
    let go_on = Step::ptrace(1000, Request::Continue, 1001, 0);
    make(rt, alloc, host, user, go_on)
}

/// The LWP 100001 of process 1001 executes another program, and stops at the exit of that call.
fn execute<F: Decider + Send + Drop>(
    rt: &impl Print,
    alloc: Global,
    host: &mut Host<F>,
    user: Uid,
) -> io::Result<()> {
    let enter = Step::turn(100001, Act::Enter(Call::Exec));
    make(rt, alloc, host, user, enter)?;
    make(rt, alloc, host, user, Step::turn(100001, Act::Leave))?;
    let reply = host.step(alloc, user, Step::handle(1000));
    tell(rt, &reply)?;
    make(rt, alloc, host, user, Step::wait4(1000, -1, NONE))
}

/// Process 1001 is traced with this handler, and executes another program.
fn debug<F: Decider + Send + Drop>(
    rt: &impl Print,
    alloc: Global,
    host: &mut Host<F>,
    handler: Handler<F>,
) -> Result<(), ExampleError> {
    let user = Uid::new(1001)?;
    attach(rt, alloc, host, user, handler)?;
    execute(rt, alloc, host, user)?;
    Ok(())
}

/// What a debugger with this decider is answered, on a host of its own.
fn drive<F: Decider + Send + Drop>(
    rt: &impl Print,
    alloc: Global,
    policy: Policy,
    decider: F,
) -> Result<(), ExampleError>
    requires askable { F.can_ask decider }
    requires obeys { Obeys (F.gives decider) policy }
{
    let mut host = Host::new(alloc, Settings::standard())?;
    debug(rt, alloc, &mut host, Handler::new(policy, decider))
}

/// Kills a process that executes another program; each other stop is left to the debugger.
pub fn sandbox(rt: &impl Print, alloc: Global) -> Result<(), ExampleError> {
    let policy = Policy::new(&[Rule {
        signal: None,
        flags: StopFlags::PL_FLAG_EXEC,
        decision: Decision::Kill,
    }])?;
    let decide = |view: &StopView| {
        if view.flags.shows(StopFlags::PL_FLAG_EXEC) {
            Decision::Kill
        } else {
            Decision::Decline
        }
    };
    drive(rt, alloc, policy, ByClosure(decide))
}
