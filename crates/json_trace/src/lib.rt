//! The JSON lines of a run with the steps that they answer. docs/FORMAT.md lists the members.
//!
//! `write_trace` writes the lines of a run's replies with their steps. `write_states` makes the steps itself, and also writes
//! the rows that each one changed, as its user sees them.
//!
//! The main clauses: what is written is the text of the definition (specs/Traces, specs/Changes), or its beginning if a write
//! failed. Law `laws::rows_tell`: rows with the same text are the same.
//!
//! Begin with `lines`, then with `traces` and `states`.
#![tactic(auto)]

mod changes;
pub mod laws;
mod lines;
mod places;
mod rows;
mod states;
mod traces;
mod writing;

pub use places::ScenarioSteps;
pub use rows::rows_text;
pub use states::{write_fault, write_states};
pub use traces::{replies_to, write_trace, write_trace_by_user};
