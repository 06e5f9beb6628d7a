//! Runs of users' scripts at the same time on one host.

mod gates;
mod order;
mod runs;
mod scripts;

use std::alloc::Global;
use std::sync::Wait;
use std::thread::Threads;
use test_kit::TestError;

pub fn check<R: Print + Threads + Wait + Sync>(rt: &R, alloc: Global) -> Result<(), TestError> {
    order::a_gate_is_told_before_and_after_each_call(rt, alloc)?;
    runs::two_users_run_at_the_same_time(rt, alloc)?;
    runs::two_scripts_of_a_user_run_at_the_same_time(rt, alloc)?;
    runs::a_user_has_two_scripts(rt, alloc)?;
    runs::sixty_five_scripts_are_too_many(rt, alloc)?;
    runs::no_script_does_nothing(rt, alloc)?;
    runs::sixty_four_users_make_a_hundred_calls_each(rt, alloc)?;
    println!(rt; "scripts at the same time: 7 checks passed")?;
    Ok(())
}
