//! Reads scenarios: from JSON bytes to the steps of users.
//!
//! `parse` reads a whole scenario, `parse_step` one step. Both return the first fault with its byte (`fault`). The
//! steps stay plain: policies are kept apart, in the order of the installs.
//!
//! It uses `json_values`, so that a step of text becomes a step without a tree of values in between, and knows
//! no host.
//!
//! Begin with `parsing`, then `members` and `steps`. The main clause of `parse`: the scenario is the one that the
//! definition reads from the data of `serde_json` (specs/Scenarios), and a fault means that there is none.
#![tactic(auto)]

mod acts;
mod arrays;
mod atoms;
mod fault;
mod fields;
mod keys;
pub mod laws;
mod listing;
mod members;
mod one_step;
mod parsing;
mod plan;
mod reading;
mod retrying;
mod rules;
mod step_list;
mod steps;
mod stop;
mod tracing;

pub use fault::Fault;
pub use one_step::{MAX_STEP_BYTES, StepReader, parse_step};
pub use parsing::{one_answer, parse};
pub use plan::{Scenario, USERS};
pub use reading::read;
pub use step_list::{BareStep, StepList, Steps};
