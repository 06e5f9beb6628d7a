//! Replies as JSON objects. docs/FORMAT.md lists their members.
//!
//! It appends a reply's object to a text, with the kit's `json` for numbers and escapes. It is apart from
//! `step_types`, since most users of replies want no JSON.
//!
//! Begin with `objects`. The main clause of `push_reply`: the text is that of the definition (specs/Objects), which
//! names each member once.
#![tactic(auto)]

mod arrays;
mod members;
mod objects;
mod statuses;
mod stops;

pub use arrays::{push_flags, push_numbers, push_signals};
pub use members::{push_nonzero, push_number, push_string};
pub use objects::{ObjectWriter, push_answer, push_place, refusal_json};
