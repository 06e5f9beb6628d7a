//! Uses the public calls, types, fields and variants that the library has for shared hosts, sessions in threads and
//! scenarios, and checks what they answer. It prints the name of each part, and ends with status 1 if a check fails. A
//! name that is gone doesn't build.
#![tactic(auto)]

mod hosts;
mod hosts_by_user;
mod lines;
mod session_runs;
mod shared_host;
mod texts;

use test_kit::TestError;

fn main(rt: HostRuntime) -> Result<(), TestError> {
    let alloc = rt.alloc();
    shared_host::check(&rt, alloc)?;
    session_runs::check(&rt, alloc)?;
    texts::check(&rt, alloc)?;
    lines::check(&rt, alloc)?;
    hosts_by_user::check(&rt, alloc)
}
