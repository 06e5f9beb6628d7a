//! Examples of the library: the smallest use of a host, a host stepped by hand, a list of two users' steps, and one host
//! shared by two sessions in threads.
//!
//! docs/internals/LIBRARY.md shows and explains this code. The file stdout contains the expected output. It was written from
//! docs/FORMAT.md.
#![tactic(auto)]

mod example_error;
mod listed;
mod shared;
mod smallest;
mod stepped;

use example_error::ExampleError;

fn main(rt: HostRuntime) -> Result<(), ExampleError> {
    smallest::two_steps(&rt, rt.alloc())?;
    stepped::sandbox(&rt, rt.alloc())?;
    listed::two_users(&rt, rt.alloc())?;
    shared::two_threads(&rt, rt.alloc())
}
