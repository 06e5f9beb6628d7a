//! Runs scripts of many users at the same time on one shared host.
//!
//! A script is a user's list of steps. `run_sessions` gives each a worker, in as many threads as it is told, and
//! returns each script's report.
//!
//! It uses `host_lock`, and is apart from it since a script isn't the only way to use a shared host.
//!
//! Begin with `run`. The main clause `own` of `run_sessions`: whatever the schedule, each user's replies are those of
//! the user's own scripts. Law `laws::every_schedule` compares every two schedules.
#![tactic(auto)]

mod boxing;
mod kept;
pub mod laws;
mod preparing;
mod report;
mod run;
mod script;
mod session_script;
mod worker;
mod workers;

pub use boxing::{AnyScript, BoxedScript, Scripted, boxed};
pub use host_lock::BoxedStep;
pub use kept::Kept;
pub use report::{Report, Whole};
pub use run::run_sessions;
pub use script::{Gate, RunRefusal, Script, Transcript};
