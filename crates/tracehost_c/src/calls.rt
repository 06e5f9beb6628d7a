//! What the calls have in common.
ghost use Rattle.std.specs.Prelude.{ℕ, List, [], ◌≡◌, ◌≢◌, ◌≤◌, ◌↔◌, None, Some, IsNone, ◌⊎◌, IfOk, string_bytes};
ghost use Rattle.pid_blocks.specs.Users.{IsUser};
ghost use Rattle.requests.specs.View.{view};
ghost use Rattle.json_trace.specs.Rows.{rows_json};
ghost use Rattle.open_sessions.specs.Answers.{last_numbers};
ghost use Rattle.open_sessions.specs.Calls.{last_text, state_of, LineOf, NoLine};
ghost use Rattle.scenario_text.specs.declared.fault.Fault.TheVariants.{Memory as NoMemory};
ghost use Rattle.tracehost_c.specs.declared.replies.FlatReply.{FlatReply as Flat};
ghost use Rattle.tracehost_c.specs.Calls.{style_of, Explains, LineCall, Shows, StepOf, TakesUser, RefusesUser, TypedCall};

use crate::handle::Tracehost;
use crate::replies::FlatReply;
use diagnostics::{Source, explain};
use json_trace::rows_text;
use open_sessions::{Session, SessionFault, copy_front};
use pid_blocks::Uid;
use requests::PlainStep;
use scenario_runs::Style;
use scenario_text::{Fault, parse_step};
use std::alloc::{AllocError, Global};
use user_hosts::CopyRefusal;

/// The call was answered.
pub(crate) const ANSWERED: u32 = 0;

/// The handle isn't open, or is open although it is to be opened.
pub(crate) const NOT_OPEN: u32 = 1;

/// Memory ran out. Nothing has changed.
pub(crate) const NO_MEMORY: u32 = 2;

/// A number is not one of those that exist.
pub(crate) const INVALID: u32 = 3;

/// The step was made, and memory ran out for its text.
const NO_TEXT: u32 = 4;

/// The user has had the most answers that are counted.
const TOO_MANY: u32 = 5;

fn style_of(json: bool) -> Style
    ensures { result ≡ style_of json }
{
    if json { Style::Json } else { Style::Text }
}

/// Writes the line of the last answer.
pub(crate) fn put_text(
    alloc: Global,
    session: &mut Session,
    json: bool,
    out: &mut [u8],
    whole: &mut usize,
) -> u32
    ensures session { session.new ≡ session.old }
    ensures shown { result ≡ 0 → Shows (last_text (style_of json) session.old) out.old out.new whole.new }
    ensures refused { result ≢ 0 → (result ≡ 2) × (out.new ≡ out.old) × (whole.new ≡ whole.old) }
{
    match session.show(alloc, style_of(json), out) {
        Ok(length) => {
            *whole = length;
            ANSWERED
        }
        Err(_) => NO_MEMORY,
    }
}

/// Answers a line, and writes the line of its answer.
pub(crate) fn put_line(
    alloc: Global,
    session: &mut Session,
    json: bool,
    line: &[u8],
    out: &mut [u8],
    whole: &mut usize,
) -> u32
    ensures call { LineCall line.now (Some session.old) (Some session.new) result }
    ensures shown { result ≡ 0 → Shows (last_text (style_of json) session.new) out.old out.new whole.new }
    ensures kept { result ≢ 0 → (out.new ≡ out.old) × (whole.new ≡ whole.old) }
{
    match session.answer(alloc, line) {
        Ok(()) => match session.show(alloc, style_of(json), out) {
            Ok(length) => {
                *whole = length;
                ANSWERED
            }
            Err(_) => NO_TEXT,
        },
        Err(SessionFault::Memory) => NO_MEMORY,
        Err(SessionFault::TooManyAnswers) => TOO_MANY,
    }
}

/// Writes the line of the step that was answered last.
pub(crate) fn put_step(
    alloc: Global,
    session: &mut Session,
    out: &mut [u8],
    whole: &mut usize,
) -> u32
    ensures session { session.new ≡ session.old }
    ensures code { (result ≢ 1) × (result ≤ 3) }
    ensures shown { result ≡ 0 → (line : List ℕ) × LineOf session.old.asked line × Shows line out.old out.new whole.new }
    ensures none { result ≡ 3 → NoLine session.old.asked }
    ensures refused { result ≢ 0 → (out.new ≡ out.old) × (whole.new ≡ whole.old) }
{
    match session.show_step(alloc, out) {
        Ok(Some(length)) => {
            *whole = length;
            ANSWERED
        }
        Ok(None) => INVALID,
        Err(_) => NO_MEMORY,
    }
}

/// Writes all that the user sees, as numbers.
pub(crate) fn put_state(
    alloc: Global,
    session: &Session,
    user: Uid,
    out: &mut [u32],
    whole: &mut usize,
) -> u32
    ensures shown { result ≡ 0 → Shows (state_of user session.now) out.old out.new whole.new }
    ensures refused { result ≢ 0 → (result ≡ 2) × (out.new ≡ out.old) × (whole.new ≡ whole.old) }
{
    match session.show_state(alloc, user, out) {
        Ok(count) => {
            *whole = count;
            ANSWERED
        }
        Err(_) => NO_MEMORY,
    }
}

/// Returns the text of the rows that the user sees. An error means out of memory.
fn text_of_rows(alloc: Global, session: &Session, user: Uid) -> Result<Vec<u8>, AllocError>
    ensures { IfOk result (λ text. text.items ≡ rows_json (view user session.now.host)) }
{
    let seen = session.view(alloc, user)?;
    rows_text(alloc, &seen)
}

/// Writes the rows that the user sees, as text.
pub(crate) fn put_rows(
    alloc: Global,
    session: &Session,
    user: Uid,
    out: &mut [u8],
    whole: &mut usize,
) -> u32
    ensures shown { result ≡ 0 → Shows (rows_json (view user session.now.host)) out.old out.new whole.new }
    ensures refused { result ≢ 0 → (result ≡ 2) × (out.new ≡ out.old) × (whole.new ≡ whole.old) }
{
    match text_of_rows(alloc, session, user) {
        Ok(text) => {
            *whole = copy_front(text.as_slice(), out);
            ANSWERED
        }
        Err(_) => NO_MEMORY,
    }
}

/// What is said of a line for which nothing better is found.
const NO_STEP: &str = "  this isn't a step\n";

/// Returns why a line isn't a step.
fn explanation_of(alloc: Global, number: usize, line: &[u8]) -> Result<String, AllocError>
    ensures { IfOk result (λ text. string_bytes text ≢ []) }
{
    let text = explain(alloc, Source::Line(number), line)?;
    if text.is_empty() {
        return String::from_str(alloc, NO_STEP);
    }
    Ok(text)
}

/// Writes why a line isn't a step, unless memory ran out while it was read.
fn put_reasons(
    alloc: Global,
    fault: Fault,
    number: usize,
    line: &[u8],
    out: &mut [u8],
    whole: &mut usize,
) -> u32
    ensures shown { result ≡ 0 → (fault ≢ NoMemory) × (text : List ℕ) × (text ≢ []) × Shows text out.old out.new whole.new }
    ensures refused { result ≢ 0 → (result ≡ 2) × (out.new ≡ out.old) × (whole.new ≡ whole.old) }
{
    if let Fault::Memory = fault {
        return NO_MEMORY;
    }
    match explanation_of(alloc, number, line) {
        Ok(text) => {
            *whole = copy_front(text.as_bytes(), out);
            ANSWERED
        }
        Err(_) => NO_MEMORY,
    }
}

/// Writes why a line isn't a step; nothing if it is one.
pub(crate) fn put_explanation(
    alloc: Global,
    number: usize,
    line: &[u8],
    out: &mut [u8],
    whole: &mut usize,
) -> u32
    ensures explained { result ≡ 0 → Explains line.now out.old out.new whole.new }
    ensures refused { result ≢ 0 → (result ≡ 2) × (out.new ≡ out.old) × (whole.new ≡ whole.old) }
{
    match parse_step(alloc, line) {
        Ok(_) => {
            *whole = 0;
            ANSWERED
        }
        Err(fault) => put_reasons(alloc, fault, number, line, out, whole),
    }
}

/// Writes the numbers of the last answer.
pub(crate) fn put_numbers(session: &Session, out: &mut [u32], whole: &mut usize)
    ensures { Shows (last_numbers session.now.last) out.old out.new whole.new }
{
    *whole = copy_front(session.numbers(), out);
}

/// Makes a step of a user in a session.
fn make_step(
    alloc: Global,
    session: &mut Session,
    user: Uid,
    step: &PlainStep,
    reply: &mut FlatReply,
) -> u32
    ensures { StepOf user step.now session.old session.new reply.old reply.new result }
{
    match session.step(alloc, user, step) {
        Ok(()) => {
            if let Some(answer) = session.reply() {
                reply.set(answer);
            }
            ANSWERED
        }
        Err(_) => TOO_MANY,
    }
}

/// Returns the code of a call whose numbers are those of no step.
pub(crate) fn refused(handle: &Tracehost) -> u32
    ensures { (user : ℕ) (reply : Flat) → TypedCall user None handle.now.held.session handle.now.held.session reply reply result }
{
    if handle.is_open() { INVALID } else { NOT_OPEN }
}

/// Makes a step of the user with this number, if there is such a user.
pub(crate) fn make(
    alloc: Global,
    handle: &mut Tracehost,
    user: u32,
    step: &PlainStep,
    reply: &mut FlatReply,
) -> u32
    ensures { TypedCall user (Some step.now) handle.old.held.session handle.new.held.session reply.old reply.new result }
{
    if !handle.is_open() {
        return NOT_OPEN;
    }
    let Ok(user) = Uid::new(user) else {
        return INVALID;
    };
    let taken = std::mem::replace(handle, Tracehost::closed(alloc));
    let mut session = taken.session();
    let code = make_step(alloc, &mut session, user, step, reply);
    *handle = Tracehost::of(session);
    code
}

/// Puts a copy of the session in the place of an open handle's. The handle that the session was taken from isn't open.
pub(crate) fn put_copy(alloc: Global, source: &mut Session, to: &mut Tracehost) -> u32
    ensures source { source.new ≡ source.old }
    ensures copied { result ≡ 0 → to.new.held.session ≡ Some source.old }
    ensures unchanged { result ≢ 0 → to.new ≡ to.old }
    ensures not_open { (result ≡ 1) ↔ IsNone to.old.held.session }
    ensures code { result ≤ 2 }
{
    if !to.is_open() {
        return NOT_OPEN;
    }
    let Ok(copy) = source.copy_for(alloc) else {
        return NO_MEMORY;
    };
    // not before, so that an error leaves the handle as it was
    let mut session = std::mem::replace(to, Tracehost::closed(alloc)).session();
    source.keep(session.become_copy(copy));
    *to = Tracehost::of(session);
    ANSWERED
}

/// Puts what the user has in the session into an open handle's. The handle that the session was taken from isn't open.
pub(crate) fn put_user(alloc: Global, source: &Session, user: u32, to: &mut Tracehost) -> u32
    ensures copied { result ≡ 0 → TakesUser user (Some source.now) to.old.held.session to.new.held.session }
    ensures unchanged { result ≢ 0 → to.new.held.session ≡ to.old.held.session }
    ensures not_open { (result ≡ 1) ↔ IsNone to.old.held.session }
    ensures invalid { (result ≡ 3) ↔ RefusesUser user (Some source.now) to.old.held.session }
    ensures code { result ≤ 3 }
{
    if !to.is_open() {
        return NOT_OPEN;
    }
    let Ok(user) = Uid::new(user) else {
        return INVALID;
    };
    let mut session = std::mem::replace(to, Tracehost::closed(alloc)).session();
    let copied = session.copy_user(alloc, user, source);
    *to = Tracehost::of(session);
    match copied {
        Ok(()) => ANSWERED,
        Err(CopyRefusal::Memory) => NO_MEMORY,
        Err(CopyRefusal::Settings) => INVALID,
    }
}
