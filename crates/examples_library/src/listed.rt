//! A list of two users' steps, and each user's view.

use crate::example_error::ExampleError;
use pid_blocks::Uid;
use requests::{Host, PlainStep, Request, Step};
use std::alloc::{AllocError, Global};
use stop_handlers::{ByPolicy, Handler};
use trace_stop::Settings;
use visibility::{run_list, user_view};

/// The steps with a handler for each policy.
fn by_policy(
    alloc: Global,
    plain: &[(Uid, PlainStep)],
) -> Result<Vec<(Uid, Step<Handler<ByPolicy>>)>, AllocError> {
    let mut steps = Vec::new(alloc);
    for (user, step) in plain {
        steps.push((*user, step.by_policy()))?;
    }
    Ok(steps)
}

/// Prints the processes that the user sees.
fn see(
    rt: &impl Print,
    alloc: Global,
    host: &Host<ByPolicy>,
    user: Uid,
) -> Result<(), ExampleError> {
    let view = user_view(alloc, host, user)?;
    let number = user.get();
    for process in view.processes.iter() {
        let pid = process.pid.get();
        println!(rt; "user {number} sees process {pid}")?;
    }
    Ok(())
}

/// Makes the steps on the host, and prints the replies.
fn run(
    rt: &impl Print,
    alloc: Global,
    host: &mut Host<ByPolicy>,
    plain: &[(Uid, PlainStep)],
) -> Result<(), ExampleError> {
    let replies = run_list(alloc, host, by_policy(alloc, plain)?)?;
    for reply in replies.iter() {
        println!(rt; "{reply}")?;
    }
    Ok(())
}

/// Makes steps of two users on the host, and prints the replies and what each user sees then.
fn make(rt: &impl Print, alloc: Global, host: &mut Host<ByPolicy>) -> Result<(), ExampleError> {
    let (one, other) = (Uid::new(1001)?, Uid::new(1002)?);
    let steps = [
        (one, Step::Spawn),
        (other, Step::Spawn),
        (one, Step::Spawn),
        (one, Step::ptrace(1000, Request::Attach, 2000, 0)),
        (one, Step::kill(1000, 1001, 9)),
        (other, Step::list(2000)),
    ];
    run(rt, alloc, host, &steps)?;
    see(rt, alloc, host, one)?;
    see(rt, alloc, host, other)
}

/// The same on a new host.
pub fn two_users(rt: &impl Print, alloc: Global) -> Result<(), ExampleError> {
    let mut host = Host::new(alloc, Settings::standard())?;
    make(rt, alloc, &mut host)
}
