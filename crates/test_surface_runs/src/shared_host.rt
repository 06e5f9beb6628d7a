//! Sessions on one host. The expected replies were worked out by hand from the manual pages.

mod opening;
mod pairs;
mod threads;

use std::alloc::Global;
use std::sync::Wait;
use std::thread::Threads;
use test_kit::TestError;

pub fn check<R: Print + Threads + Wait + Sync>(rt: &R, alloc: Global) -> Result<(), TestError> {
    opening::a_session_makes_4294967295_calls()?;
    opening::neither_none_nor_sixty_five_open_a_host(alloc)?;
    opening::a_user_may_have_two_sessions(rt, alloc)?;
    opening::a_host_waits_for_all_its_sessions(rt, alloc)?;
    opening::a_call_stands_behind_the_moment_that_was_learned(rt, alloc)?;
    threads::two_threads_spawn(rt, alloc)?;
    threads::a_debugger_works_beside_another_user(rt, alloc)?;
    println!(rt; "sessions on a shared host: 7 checks passed")?;
    Ok(())
}
