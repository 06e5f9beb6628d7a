//! Runs scenarios: from the steps of users to the lines of their replies.
//!
//! `run` makes each step on a host and appends its line at once, in words or as JSON. `short_lines` writes the common
//! replies without a `String`.
//!
//! It is below `scenario`, which adds threads, so that a session by lines and the C library need none.
//!
//! Begin with `running`. The main clause `writes` of `run_with`: what is written are the lines of the replies that
//! the machine gives to the scenario's steps (specs/Runs and Lines).
#![tactic(auto)]

mod binding;
mod lines;
mod number_lists;
mod retrying;
mod running;
mod short_lines;
mod style;

pub use binding::{
    ByPolicyRef, bind, handlers_from, obey, policies, policy_handlers, step_with_handler,
};
pub use lines::{count_reply, push_line, push_shown, render, render_with};
pub use reply_json::ObjectWriter;
pub use running::{
    LineOptions, RunFault, RunOptions, line_fault, replies, run, run_with, write_whole,
};
pub use scenario_text::{
    BareStep, Fault, MAX_STEP_BYTES, Scenario, StepReader, USERS, one_answer, parse, parse_step,
    read,
};
pub use style::Style;
