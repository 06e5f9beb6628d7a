//! What the test crates share: sessions written as lines of text, users' views of two hosts compared, a debugger whose
//! tracee forks, pseudo-random numbers, and one error type.
#![tactic(auto)]

mod dice;
mod forks;
mod lines;
mod rows;
mod sessions;
mod steps;
mod test_error;
mod views;

pub use dice::Dice;
pub use forks::{FORK_STOPS, fork_policy};
pub use lines::{lines_of, step_in, steps_in};
pub use rows::{Row, rows_of};
pub use sessions::{check_replies, follow, host_after};
pub use test_error::{TestError, expect};
pub use views::{check_hosts, sees_same};
