//! Uses the public calls, types, fields and variants that the library has for numbers, tables, steps, stops and views, and
//! checks what they answer. It prints the name of each part, and ends with status 1 if a check fails. A name that is
//! gone doesn't build.
#![tactic(auto)]

mod handlers;
mod laws;
mod numbers;
mod refusals;
mod statuses;
mod steps;
mod stops;
mod tables;
mod views;

use test_kit::TestError;

fn main(rt: HostRuntime) -> Result<(), TestError> {
    let alloc = rt.alloc();
    numbers::check(&rt, alloc)?;
    tables::check(&rt, alloc)?;
    statuses::check(&rt, alloc)?;
    steps::check(&rt, alloc)?;
    handlers::check(&rt, alloc)?;
    stops::check(&rt, alloc)?;
    refusals::check(&rt, alloc)?;
    views::check(&rt, alloc)?;
    laws::check(&rt, alloc)
}
