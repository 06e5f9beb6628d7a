//! The smallest use of a host: a user makes a process, which lists the user's processes.

use crate::example_error::ExampleError;
use pid_blocks::Uid;
use requests::{Host, Step};
use std::alloc::Global;
use stop_handlers::ByPolicy;
use trace_stop::Settings;

/// Makes two steps, and prints their replies.
pub fn two_steps(rt: &impl Print, alloc: Global) -> Result<(), ExampleError> {
    let user = Uid::new(1001)?;
    let mut host: Host<ByPolicy> = Host::new(alloc, Settings::standard())?;
    let reply = host.step(alloc, user, Step::Spawn);
    println!(rt; "{reply}")?;
    let reply = host.step(alloc, user, Step::list(1000));
    println!(rt; "{reply}")?;
    Ok(())
}
