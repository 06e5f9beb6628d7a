//! An open session: a host whose users' steps are answered one after another, as values or as lines of text.
//!
//! A `Session` has a host, each user's count of answers, and the last answer, which can be asked for as a value or as
//! a line, and so can the step that it answers. The C library is a thin layer over it, and so is `serve`, which is
//! `tracehost --lines`: a debugger's author writes a step, reads the reply, and decides what comes next.
//!
//! `Session::show_step` writes the line of the last step, `line_of` (specs/StepLines), if its bits have names. Laws
//! `laws::each_line_is_its_step` and `laws::a_line_is_made_alike`: such a line is read as the step, a PT_TRACE_ME without
//! what it ignores, and the machine answers both alike.
//!
//! Begin with `session`, then `serving`. The main clause of `answer` and `step`: the answer is the machine's
//! (specs/Answers). That of `serve`: the bytes that were written are the answers to the lines that were read, each
//! ended by a line feed (specs/Sessions). Law `laws::calls_are_private`: each user's answers are those of the user's
//! own calls.
#![tactic(auto)]

mod answering;
mod answers;
mod fault;
pub mod flat;
mod front;
pub mod laws;
mod line_steps;
mod serve_fault;
mod serving;
mod session;
mod step_members;
mod texts;
mod view_words;

pub use fault::SessionFault;
pub use front::copy_front;
pub use serve_fault::ServeError;
pub use serving::serve;
pub use session::{Session, SessionCopy};
pub use step_members::{policy_of, push_step};
