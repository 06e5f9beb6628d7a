//! JSON values that are read without memory, and the data that `serde_json` reads from the same text.
//!
//! A scenario of 4 MiB is read in one pass, and a text without escapes takes no memory. `Tokens` gives the pieces of
//! a text in order: keys, scalars, the beginnings and ends of objects and arrays. What is passed by (`pass_value`) is
//! checked as strictly as what is read.
//!
//! It uses the kit's `json` and its definitions, and is apart from `scenario_text` since it knows nothing of
//! steps.
//!
//! Begin with `tokens`, then with `lexer`. The main clauses say that a value is the one that the specification of
//! `serde_json` reads there, and that a refusal means that the text is none (specs/Reading).
#![tactic(auto)]

mod bytes;
mod escapes;
mod lexer;
mod numbers;
mod punctuation;
mod scalars;
mod tokens;
mod words;

pub use scalars::{
    Opening, Scalar, common_scalar, next_scalar, open_item, open_value, pass_items, pass_members,
    pass_value,
};
pub use tokens::Tokens;
