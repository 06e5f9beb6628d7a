//! Reads lines, keeps a bounded part of each, writes bytes, and finds the first line at which two texts differ.
//!
//! `read_line` takes a line of any length in bounded memory. `write_all` writes all bytes, or returns an error
//! and has written their beginning. Both try again if a signal interrupted a call.
//!
//! It is apart from `open_sessions` and `tracehost`, since its clauses are about bytes and readers, not about steps.
//!
//! Begin with `read_line`: it returns the line's beginning and whether it was longer (specs/Lines). `first_difference`
//! returns the first line in which the texts differ, and none exactly if they are equal (specs/Differences).
#![tactic(auto)]

mod comparing;
mod reading;
mod sources;
mod writing;

pub use comparing::{Difference, first_difference};
pub use reading::{LineEnd, read_line};
pub use sources::LineSource;
pub use writing::{flush, write_all};
