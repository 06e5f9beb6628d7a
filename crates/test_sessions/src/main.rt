//! Runs many sessions of mixed users in threads, and compares each run with a replay of its journal. It prints how much
//! was compared, and ends with status 1 if a check fails.
#![tactic(auto)]

mod stress;

use test_kit::TestError;

fn main(rt: HostRuntime) -> Result<(), TestError> {
    stress::check(&rt, rt.alloc())
}
