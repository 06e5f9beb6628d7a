//! A run of a scenario with a session for each user, each in its own thread.

ghost use Rattle.std.specs.Prelude.{◌≡◌, ◌≢◌, ◌⊎◌, ◌↔◌, ◌≤◌, ◌++◌, [], length, map, option_map, string_bytes, Some, IsErrOf, IfOk, IfErr, OnOk};
ghost use Rattle.std.specs.List.{flat_map, AllByRecursion};
ghost use Rattle.std.specs.Vec.Iter.{into_iter_items};
ghost use Rattle.pid_blocks.specs.Blocks.{users};
ghost use Rattle.requests.specs.Isolation.{Users};
ghost use Rattle.scenario_text.specs.Plan.{max_steps, policies_in};
ghost use Rattle.scenario_runs.specs.Runs.{answers_of, IsBound, Writes};
ghost use Rattle.scenario.specs.Grouped.{shown_grouped};
ghost use Rattle.host_lock.specs.Boxed.{own_step};
ghost use Rattle.sessions.specs.Boxed.{boxed_script};
ghost use Rattle.scenario.specs.Scripts.{answers_by_scripts, has_steps, scripts_in, text_in, told_by, IsMade, Shows};
ghost use Rattle.scenario_runs.specs.declared.running.RunFault.TheVariants.{Mismatch, Memory, Start, Write as WriteFault};
ghost use Rattle.scenario_runs.specs.declared.style.Style.TheVariants as style;

use crate::lines::{LineReport, UserLines};
use pid_blocks::Uid;
use requests::{Host, Step};
use scenario_runs::{
    BareStep, LineOptions, RunFault, RunOptions, Scenario, USERS, obey, write_whole,
};
use sessions::{BoxedScript, BoxedStep, Gate, RunRefusal, Transcript, run_sessions};
use std::alloc::{AllocError, Global};
use std::io::Write;
use std::sync::Wait;
use std::thread::Threads;
use std::vec::IntoIter;
use stop_handlers::{Decider, Handler};

/// A gate that does nothing.
pub(crate) struct NoGate;

impl Gate for NoGate {
    fn before(&self, _user: Uid, _index: u32) {}

    fn after(&self, _user: Uid, _index: u32) {}

    fn may_wait(&self) -> bool {
        false
    }
}

/// Returns how many steps each user has, in the order of the users.
fn counts_of(scenario: &Scenario) -> [usize; USERS] {
    let mut counts = [0usize; USERS];
    for bare_step in scenario.bare_steps() {
        let place = bare_step.0.slot();
        counts[place] = counts[place].saturating_add(1);
    }
    counts
}

/// Creates an empty script for each of the 64 users, by rising number, with room for `counts` steps. An error means out
/// of memory.
fn empty_scripts<F: Decider + Send + Drop>(
    alloc: Global,
    counts: &[usize; USERS],
) -> Result<Vec<BoxedScript<F, ()>>, AllocError>
    ensures { IfOk result (λ scripts. map boxed_script scripts.items ≡ map (λ u. (u, [])) users) }
{
    let mut scripts = Vec::with_capacity(alloc, USERS)?;
    for number in 1001..1065 {
        if let Ok(uid) = Uid::new(number) {
            let steps = Vec::with_capacity(alloc, counts[uid.slot()])?;
            scripts.push(BoxedScript {
                uid,
                steps,
                report: (),
            })?;
        }
    }
    Ok(scripts)
}

/// Returns whether the script has steps.
fn is_asked<F: Decider + Send + Drop>(script: &BoxedScript<F, ()>) -> bool
    ensures { result ≡ has_steps (boxed_script script.now) }
{
    !script.steps.is_empty()
}

/// Returns the step as a script keeps it: an install gets the next handler, on the heap. An error means out of memory.
fn small_step<F: Decider + Send + Drop>(
    alloc: Global,
    bare_step: &BareStep,
    handlers: &mut IntoIter<Handler<F>>,
) -> Result<Option<BoxedStep<F>>, AllocError>
    ensures { IfOk result (λ step. IsBound bare_step.now (into_iter_items handlers.old) (into_iter_items handlers.new) (option_map own_step step)) }
{
    match bare_step {
        Step::Install { .. } => match handlers.next() {
            Some(handler) => Ok(bare_step.with_handler(Some(Box::new(alloc, handler)?))),
            None => Ok(None),
        },
        _ => Ok(bare_step.with_handler(None)),
    }
}

/// Returns a script for each user with steps, by rising number of the users. Each install gets the next handler. An
/// error means out of memory.
pub(crate) fn scripts_of<F: Decider + Send + Drop>(
    alloc: Global,
    scenario: &Scenario,
    handlers: Vec<Handler<F>>,
) -> Result<Vec<BoxedScript<F, ()>>, AllocError>
    requires { handlers.items ≡ policies_in scenario.now.steps }
    ensures scripts { IfOk result (λ scripts. map boxed_script scripts.items ≡ scripts_in scenario.now.steps) }
    ensures users { OnOk result (Users scenario.now.steps) }
    ensures few { OnOk result (length scenario.now.steps ≤ max_steps) }
{
    let bare_steps = scenario.bare_steps();
    let mut scripts = empty_scripts(alloc, &counts_of(scenario))?;
    let mut rest = handlers.into_iter();
    for bare_step in bare_steps {
        let Some(small) = small_step(alloc, &bare_step.1, &mut rest)? else {
            unreachable!()
        };
        scripts[bare_step.0.slot()].steps.push(small)?;
    }
    scripts.retain(|script| is_asked(script));
    Ok(scripts)
}

/// Returns the scripts with reports of the lines that the options show. An error means out of memory.
fn reported<F: Decider + Send + Drop>(
    alloc: Global,
    scripts: Vec<BoxedScript<F, ()>>,
    options: &LineOptions,
) -> Result<Vec<BoxedScript<F, LineReport>>, AllocError>
    ensures scripts { IfOk result (λ v. map boxed_script v.items ≡ map boxed_script scripts.items) }
    ensures reports { IfOk result (λ v. AllByRecursion (λ s. s.report.options ≡ options.now) v.items) }
{
    let mut all = Vec::with_capacity(alloc, scripts.len())?;
    for script in scripts {
        let BoxedScript {
            uid,
            steps,
            report: _,
        } = script;
        let report = LineReport { options: *options };
        all.push(BoxedScript { uid, steps, report })?;
    }
    Ok(all)
}

/// Returns the texts of the transcripts. An error means that memory ran out for one of them.
fn texts_of(alloc: Global, transcripts: Vec<Transcript<UserLines>>) -> Result<Vec<String>, RunFault>
    ensures texts { IfOk result (λ v. map text_in transcripts.items ≡ map (λ text. Some text) v.items) }
    ensures err { IfErr result (λ e. e ≡ Memory) }
{
    let mut texts = Vec::with_capacity(alloc, transcripts.len())?;
    for transcript in transcripts {
        let Some(text) = transcript.replies.into_text() else {
            return Err(RunFault::Memory);
        };
        texts.push(text)?;
    }
    Ok(texts)
}

/// Writes the texts in order, or the beginning of them if the writer fails.
fn write_texts<W: Write>(writer: &mut W, texts: &[String]) -> Result<(), RunFault>
    ensures writes { Writes result (W.contents writer.old) (W.contents writer.new) (flat_map string_bytes texts.now) }
    ensures kind { IfErr result (λ e. e ≡ WriteFault) }
{
    for text in texts {
        write_whole(writer, text.as_bytes())?;
    }
    Ok(())
}

/// Makes the scenario's steps on a new host, by a session for each user with steps, and returns the users' lines.
fn transcripts_of<F: Decider + Send + Drop, R: Threads + Wait + Sync>(
    rt: &R,
    alloc: Global,
    scenario: &Scenario,
    handlers: Vec<Handler<F>>,
    options: &LineOptions,
) -> Result<Vec<Transcript<UserLines>>, RunFault>
    requires { handlers.items ≡ policies_in scenario.now.steps }
    ensures told { IfOk result (λ ts. AllByRecursion IsMade ts.items → map told_by ts.items ≡ answers_by_scripts scenario.now) }
    ensures shows { IfOk result (λ ts. AllByRecursion (λ t. Shows options.now t.uid t.replies) ts.items) }
    ensures users { OnOk result (Users scenario.now.steps) }
    ensures err { IfErr result (λ e. (e ≡ Memory) ⊎ (e ≡ Start)) }
{
    let scripts = scripts_of(alloc, scenario, handlers)?;
    let scripts = reported(alloc, scripts, options)?;
    let host = Host::new(alloc, scenario.settings)?;
    match run_sessions(rt, alloc, host, scripts, &NoGate) {
        Ok((_host, _calls, transcripts)) => Ok(transcripts),
        Err(RunRefusal::Memory) => Err(RunFault::Memory),
        Err(RunRefusal::Start) => Err(RunFault::Start),
        Err(RunRefusal::TooMany) => unreachable!(),
    }
}

/// Makes the steps of the scenario as `run_threads` does, and writes the lines of the replies in the style of the options.
///
/// # Errors
///
/// Those of `run_threads`.
pub fn run_threads_with<F: Decider + Send + Drop, W: Write, R: Threads + Wait + Sync>(
    rt: &R,
    alloc: Global,
    scenario: &Scenario,
    handlers: Vec<Handler<F>>,
    options: LineOptions,
    writer: &mut W,
) -> Result<(), RunFault>
    ensures writes { Writes result (W.contents writer.old) (W.contents writer.new)
        (shown_grouped options.style options.user (answers_of scenario.now)) }
    ensures mismatch { IsErrOf result Mismatch ↔ (handlers.items ≢ policies_in scenario.now.steps) }
{
    if !obey(handlers.as_slice(), scenario.policies()) {
        return Err(RunFault::Mismatch);
    }
    let transcripts = transcripts_of(rt, alloc, scenario, handlers, &options)?;
    let texts = texts_of(alloc, transcripts)?;
    write_texts(writer, texts.as_slice())
}

/// Makes the steps of the scenario on a new host as `run` does, but by a session for each user with steps, each in a
/// thread of its own. Then it writes the lines of the replies, grouped by rising user. Each user's lines are those that
/// `run` writes.
///
/// # Errors
///
/// Those of `run`, and `Start` if a thread could not be started: then nothing was written.
pub fn run_threads<F: Decider + Send + Drop, W: Write, R: Threads + Wait + Sync>(
    rt: &R,
    alloc: Global,
    scenario: &Scenario,
    handlers: Vec<Handler<F>>,
    options: RunOptions,
    writer: &mut W,
) -> Result<(), RunFault>
    ensures writes { Writes result (W.contents writer.old) (W.contents writer.new)
        (shown_grouped style.Text options.user (answers_of scenario.now)) }
    ensures mismatch { IsErrOf result Mismatch ↔ (handlers.items ≢ policies_in scenario.now.steps) }
{
    let options = LineOptions::in_words(options);
    run_threads_with(rt, alloc, scenario, handlers, options, writer)
}
