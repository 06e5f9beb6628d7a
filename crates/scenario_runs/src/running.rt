//! Runs a scenario and writes its lines.
ghost use Rattle.std.specs.Prelude.{◌≡◌, ◌≢◌, ◌↔◌, ◌⊎◌, IsErrOf, string_bytes, map, if◌then◌else◌, IfOk, IfErr};
ghost use Rattle.std.specs.Vec.Iter.{into_iter_items};
ghost use Rattle.scenario_text.specs.Plan.{policies_in};
ghost use Rattle.scenario_runs.specs.Runs.{answered, answers_of, shown, Writes, IsAnswered, run_fault_status};
ghost use Rattle.scenario_runs.specs.declared.running.RunFault.TheVariants.{Mismatch, Memory, Start, Write as WriteFault};
ghost use Rattle.scenario_runs.specs.declared.style.Style.TheVariants as style;

use crate::binding::{obey, step_with_handler};
use crate::lines::{Words, count_reply, push_shown, push_shown_by};
use crate::retrying::write_some;
use crate::style::Style;
use pid_blocks::Uid;
use reply_json::ObjectWriter;
use requests::Reply;
use scenario_text::{BareStep, Scenario, USERS};
use std::alloc::{AllocError, AllocFailed, Global};
use std::io::Write;
use std::vec::IntoIter;
use stop_handlers::{Decider, Handler};
use thiserror::Error;
use user_hosts::UserHosts;

/// The reason why a run failed.
#[derive(Clone, Copy, Debug, PartialEq, Eq, Error)]
pub enum RunFault {
    /// Memory ran out. Nothing was written.
    #[error("tracehost: out of memory")]
    Memory,
    /// A thread could not be started. Nothing was written.
    #[error("tracehost: cannot start a worker")]
    Start,
    /// The writer failed or took no byte, or memory ran out once lines were written. Before that the writer took the
    /// beginning of the text.
    #[error("tracehost: cannot write")]
    Write,
    /// The handlers are not those of the scenario's policies, one for each in order. Nothing was written.
    #[error("tracehost: handlers do not match")]
    Mismatch,
}

impl RunFault {
    /// Returns the exit status of a program that ends with the fault.
    pub fn status(&self) -> u8
        ensures { result ≡ run_fault_status self.now }
    {
        match self {
            RunFault::Memory | RunFault::Start | RunFault::Write | RunFault::Mismatch => 3,
        }
    }
}

impl From<AllocError> for RunFault {
    ghost from_gives = { λ _ e. e ≡ Memory };

    fn from(_refused: AllocError) -> RunFault {
        RunFault::Memory
    }
}

impl<T: Drop> From<AllocFailed<T>> for RunFault {
    ghost from_gives = { λ _ e. e ≡ Memory };

    fn from(_refused: AllocFailed<T>) -> RunFault {
        RunFault::Memory
    }
}

/// Makes the step on the host with the next handler if it is an install, and returns the reply. It is apart, so that
/// other steps need no room for a handler.
#[inline(never)]
fn reply_with_handler<F: Decider + Send + Drop>(
    alloc: Global,
    host: &mut UserHosts<F>,
    user: Uid,
    bare_step: &BareStep,
    handlers: &mut IntoIter<Handler<F>>,
) -> Option<Reply>
    ensures { IsAnswered user bare_step.now (into_iter_items handlers.old) (into_iter_items handlers.new) host.old host.new result }
{
    let step = step_with_handler(bare_step, handlers)?;
    Some(host.step(alloc, user, step))
}

/// Makes the step on the host, an install with the next handler, and returns the reply.
#[inline(always)]
#[tactic(auto, using(crate::proofs::BindLemmas::needs_none))]
fn reply_of<F: Decider + Send + Drop>(
    alloc: Global,
    host: &mut UserHosts<F>,
    user: Uid,
    bare_step: &BareStep,
    handlers: &mut IntoIter<Handler<F>>,
) -> Option<Reply>
    ensures { IsAnswered user bare_step.now (into_iter_items handlers.old) (into_iter_items handlers.new) host.old host.new result }
{
    if let Some(reply) = host.step_without_handler(alloc, user, bare_step) {
        return Some(reply);
    }
    reply_with_handler(alloc, host, user, bare_step, handlers)
}

/// More bytes than most lines in words have. The text of a run begins with room for such lines: what isn't used is no
/// memory, and a text that grows may leave a hole.
const WORDS_ROOM: usize = 128;

/// Makes the scenario's steps in order on a new host, and returns the lines of the replies that the options show. A
/// reply ENOMEM ends the run.
fn text_of<F: Decider + Send + Drop>(
    alloc: Global,
    scenario: &Scenario,
    handlers: Vec<Handler<F>>,
    options: &LineOptions,
) -> Result<String, RunFault>
    requires { handlers.items ≡ policies_in scenario.now.steps }
    ensures ok { IfOk result (λ s. string_bytes s ≡ shown options.now.style options.now.user (answers_of scenario.now)) }
    ensures err { IfErr result (λ e. e ≡ Memory) }
{
    let bare_steps = scenario.bare_steps();
    let mut host = UserHosts::new(alloc, scenario.settings);
    let mut rest = handlers.into_iter();
    let mut text = String::with_capacity(alloc, bare_steps.len() * WORDS_ROOM)?;
    let mut objects = ObjectWriter::new(alloc);
    let mut words = Words::new();
    let mut made = [0u64; USERS];
    for bare_step in bare_steps {
        let Some(reply) = reply_of(alloc, &mut host, bare_step.0, &bare_step.1, &mut rest) else {
            unreachable!()
        };
        if reply.is_memory() {
            return Err(RunFault::Memory);
        }
        let number = count_reply(&mut made, bare_step.0);
        push_shown_by(
            alloc,
            options,
            &mut words,
            &mut objects,
            &mut text,
            bare_step.0,
            number,
            &reply,
        )?;
    }
    Ok(text)
}

/// Makes the scenario's steps in order on a new host, and returns the replies with their users. A reply ENOMEM ends the
/// run.
fn replies_of<F: Decider + Send + Drop>(
    alloc: Global,
    scenario: &Scenario,
    handlers: Vec<Handler<F>>,
) -> Result<Vec<(Uid, Reply)>, RunFault>
    requires { handlers.items ≡ policies_in scenario.now.steps }
    ensures ok { IfOk result (λ replies. map answered replies.items ≡ answers_of scenario.now) }
    ensures err { IfErr result (λ e. e ≡ Memory) }
{
    let bare_steps = scenario.bare_steps();
    let mut host = UserHosts::new(alloc, scenario.settings);
    let mut rest = handlers.into_iter();
    let mut replies = Vec::with_capacity(alloc, bare_steps.len())?;
    for bare_step in bare_steps {
        let Some(reply) = reply_of(alloc, &mut host, bare_step.0, &bare_step.1, &mut rest) else {
            unreachable!()
        };
        if reply.is_memory() {
            return Err(RunFault::Memory);
        }
        replies.push((bare_step.0, reply))?;
    }
    Ok(replies)
}

/// Makes the steps of the scenario in order on a new host, with a handler for each installed policy, and returns the replies
/// with their users.
///
/// # Errors
///
/// `Mismatch` if the handlers' policies aren't those of the scenario in their order. `Memory` if memory ran out, also for
/// a step.
pub fn replies<F: Decider + Send + Drop>(
    alloc: Global,
    scenario: &Scenario,
    handlers: Vec<Handler<F>>,
) -> Result<Vec<(Uid, Reply)>, RunFault>
    ensures ok { IfOk result (λ replies. map answered replies.items ≡ answers_of scenario.now) }
    ensures mismatch { IsErrOf result Mismatch ↔ (handlers.items ≢ policies_in scenario.now.steps) }
    ensures err { IfErr result (λ e. (e ≡ Memory) ⊎ (e ≡ Mismatch)) }
{
    if obey(handlers.as_slice(), scenario.policies()) {
        replies_of(alloc, scenario, handlers)
    } else {
        Err(RunFault::Mismatch)
    }
}

/// Writes all the bytes, or the beginning of them if the writer fails.
pub fn write_whole<W: Write>(writer: &mut W, bytes: &[u8]) -> Result<(), RunFault>
    ensures writes { Writes result (W.contents writer.old) (W.contents writer.new) bytes.now }
    ensures kind { IfErr result (λ e. e ≡ WriteFault) }
{
    let mut rest = bytes;
    while !rest.is_empty() {
        match write_some(writer, rest) {
            Ok(0) => return Err(RunFault::Write),
            Ok(n) => rest = &rest[n..],
            Err(_) => return Err(RunFault::Write),
        }
    }
    Ok(())
}

/// The bytes of lines that are written together, if no line is longer.
const PART: usize = 32768;

/// Returns the fault of a line without memory: if lines before it are written, the writer has only the beginning.
pub fn line_fault(is_begun: bool) -> RunFault
    ensures { result ≡ (if is_begun then WriteFault else Memory) }
{
    if is_begun {
        RunFault::Write
    } else {
        RunFault::Memory
    }
}

/// Writes the lines of the replies that the options show, some at a time. Lines are shorter than a part, so no
/// memory is taken once the first part is written.
fn write_lines<W: Write>(
    alloc: Global,
    replies: &[(Uid, Reply)],
    options: &LineOptions,
    writer: &mut W,
) -> Result<(), RunFault>
    ensures writes { Writes result (W.contents writer.old) (W.contents writer.new)
        (shown options.now.style options.now.user (map answered replies.now)) }
    ensures kind { IfErr result (λ e. (e ≡ Memory) ⊎ (e ≡ WriteFault)) }
{
    let mut text = String::with_capacity(alloc, 2 * PART)?;
    let mut objects = ObjectWriter::with_capacity(alloc, PART)?;
    let mut made = [0u64; USERS];
    let mut is_begun = false;
    for reply in replies {
        let number = count_reply(&mut made, reply.0);
        let Ok(()) = push_shown(
            alloc,
            options,
            &mut objects,
            &mut text,
            reply.0,
            number,
            &reply.1,
        ) else {
            return Err(line_fault(is_begun));
        };
        if text.len() >= PART {
            write_whole(writer, text.as_bytes())?;
            text.clear();
            is_begun = true;
        }
    }
    write_whole(writer, text.as_bytes())
}

/// Which lines of a run are shown, in words.
#[derive(Clone, Copy, Debug, PartialEq, Eq, Drop)]
pub struct RunOptions {
    /// Show only this user's lines. Their numbers stay the same.
    pub user: Option<Uid>,
}

/// Which lines of a run are shown, and how.
#[derive(Clone, Copy, Debug, PartialEq, Eq, Drop)]
pub struct LineOptions {
    /// Show only this user's lines. Their numbers stay the same.
    pub user: Option<Uid>,
    /// The style of the lines.
    pub style: Style,
}

impl LineOptions {
    /// Returns the options for the same lines in words.
    pub fn in_words(options: RunOptions) -> LineOptions
        ensures { result ≡ record { user = options.user; style = style.Text } }
    {
        LineOptions {
            user: options.user,
            style: Style::Text,
        }
    }
}

/// Makes the steps of the scenario in order on a new host, as `run` does, and writes the lines of the replies in the
/// style of the options.
///
/// # Errors
///
/// Those of `run`.
pub fn run_with<F: Decider + Send + Drop, W: Write>(
    alloc: Global,
    scenario: &Scenario,
    handlers: Vec<Handler<F>>,
    options: LineOptions,
    writer: &mut W,
) -> Result<(), RunFault>
    ensures writes { Writes result (W.contents writer.old) (W.contents writer.new)
        (shown options.style options.user (answers_of scenario.now)) }
    ensures mismatch { IsErrOf result Mismatch ↔ (handlers.items ≢ policies_in scenario.now.steps) }
    ensures start { IfErr result (λ e. e ≢ Start) }
{
    if !obey(handlers.as_slice(), scenario.policies()) {
        return Err(RunFault::Mismatch);
    }
    match options.style {
        Style::Text => {
            let lines = text_of(alloc, scenario, handlers, &options)?;
            write_whole(writer, lines.as_bytes())
        }
        Style::Json => {
            let replies = replies_of(alloc, scenario, handlers)?;
            write_lines(alloc, replies.as_slice(), &options, writer)
        }
    }
}

/// Makes the steps of the scenario in order on a new host, with a handler for each installed policy. Then it writes the
/// lines of the replies, in words.
///
/// # Errors
///
/// `Mismatch` if the handlers' policies aren't those of the scenario in their order. `Memory` if memory ran out, also
/// for a step. In both cases nothing was written. `Write` if the writer failed or took no byte: then it has the
/// beginning of the text.
pub fn run<F: Decider + Send + Drop, W: Write>(
    alloc: Global,
    scenario: &Scenario,
    handlers: Vec<Handler<F>>,
    options: RunOptions,
    writer: &mut W,
) -> Result<(), RunFault>
    ensures writes { Writes result (W.contents writer.old) (W.contents writer.new)
        (shown style.Text options.user (answers_of scenario.now)) }
    ensures mismatch { IsErrOf result Mismatch ↔ (handlers.items ≢ policies_in scenario.now.steps) }
    ensures start { IfErr result (λ e. e ≢ Start) }
{
    let options = LineOptions::in_words(options);
    run_with(alloc, scenario, handlers, options, writer)
}
