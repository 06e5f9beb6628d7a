//! Explains to its author why a text isn't a scenario or a step: it shows the first mistakes with their places,
//! and what was likely meant.
//!
//! `--explain` prints it. It reads a refused text again, by `serde_json` and by a reader that goes on after a
//! mistake, so it can be slow and generous; the proved reader is fast and strict.
//!
//! No clause speaks of its texts: tests/mistakes.tsv has a row for each. So nothing that is proved rests on it, and
//! it is apart from `scenario_text`, which tells only the place of the first fault.
//!
//! Begin with `report`, then `checking`.
#![tactic(auto)]

mod characters;
mod checking;
mod confusions;
mod format;
mod json_mistakes;
mod nearness;
mod repeated;
mod report;
mod scanning;
mod tables;
mod texts;
mod wording;
mod wrong_inputs;

pub use texts::{Source, explain};
