//! The replies of a run with a session for each user.

ghost use Rattle.std.specs.Prelude.{◌≡◌, ◌≢◌, ◌⊎◌, ◌↔◌, map, IsErrOf, IfOk, IfErr};
ghost use Rattle.std.specs.List.{AllByRecursion};
ghost use Rattle.scenario_text.specs.Plan.{policies_in};
ghost use Rattle.scenario_runs.specs.Runs.{answered};
ghost use Rattle.sessions.specs.Boxed.{boxed_script};
ghost use Rattle.scenario.specs.Scripts.{answers_by_scripts, scripts_in, told_to, AreMade};
ghost use Rattle.scenario_runs.specs.declared.running.RunFault.TheVariants.{Mismatch, Memory, Start};

use crate::threading::{NoGate, scripts_of};
use pid_blocks::Uid;
use requests::{Host, Reply};
use scenario_runs::{RunFault, Scenario, obey};
use sessions::{BoxedScript, RunRefusal, Transcript, Whole, run_sessions};
use std::alloc::{AllocError, Global};
use std::sync::Wait;
use std::thread::Threads;
use stop_handlers::{Decider, Handler};

/// A user, and the user's replies in the order of the steps, each with the user.
pub type UserReplies = (Uid, Vec<(Uid, Reply)>);

/// Returns the scripts with reports of all replies. An error means out of memory.
fn with_replies<F: Decider + Send + Drop>(
    alloc: Global,
    scripts: Vec<BoxedScript<F, ()>>,
) -> Result<Vec<BoxedScript<F, Whole>>, AllocError>
    ensures { IfOk result (λ v. map boxed_script v.items ≡ map boxed_script scripts.items) }
{
    let mut all = Vec::with_capacity(alloc, scripts.len())?;
    for script in scripts {
        let BoxedScript {
            uid,
            steps,
            report: _,
        } = script;
        all.push(BoxedScript {
            uid,
            steps,
            report: Whole,
        })?;
    }
    Ok(all)
}

/// Returns the replies of a transcript. An error means that memory ran out, also for a step.
fn replies_in(alloc: Global, transcript: Transcript<Vec<Reply>>) -> Result<UserReplies, AllocError>
    ensures user { IfOk result (λ told. told.0 ≡ transcript.uid) }
    ensures replies { IfOk result (λ told. map answered told.1.items ≡ told_to transcript.uid transcript.replies.items) }
    ensures made { IfOk result (λ told. AreMade transcript.replies.items) }
{
    let user = transcript.uid;
    let mut replies = Vec::with_capacity(alloc, transcript.replies.len())?;
    for reply in transcript.replies {
        if reply.is_memory() {
            return Err(AllocError);
        }
        replies.push((user, reply))?;
    }
    Ok((user, replies))
}

/// Returns the replies of the transcripts. An error means that memory ran out, also for a step.
fn told_by(
    alloc: Global,
    transcripts: Vec<Transcript<Vec<Reply>>>,
) -> Result<Vec<UserReplies>, AllocError>
    ensures users { IfOk result (λ all. map (λ told. told.0) all.items ≡ map (λ t. t.uid) transcripts.items) }
    ensures replies { IfOk result (λ all. map (λ told. map answered told.1.items) all.items ≡ map (λ t. told_to t.uid t.replies.items) transcripts.items) }
    ensures made { IfOk result (λ all. AllByRecursion (λ t. AreMade t.replies.items) transcripts.items) }
{
    let mut all = Vec::with_capacity(alloc, transcripts.len())?;
    for transcript in transcripts {
        all.push(replies_in(alloc, transcript)?)?;
    }
    Ok(all)
}

/// Makes the scenario's steps on a new host, by a session for each user with steps, and returns the users' replies.
fn transcripts_of<F: Decider + Send + Drop, R: Threads + Wait + Sync>(
    rt: &R,
    alloc: Global,
    scenario: &Scenario,
    handlers: Vec<Handler<F>>,
) -> Result<Vec<Transcript<Vec<Reply>>>, RunFault>
    requires { handlers.items ≡ policies_in scenario.now.steps }
    ensures told { IfOk result (λ ts. AllByRecursion (λ t. AreMade t.replies.items) ts.items
        → (map (λ t. told_to t.uid t.replies.items) ts.items ≡ answers_by_scripts scenario.now) × (map (λ t. t.uid) ts.items ≡ map (λ s. s.0) (scripts_in scenario.now.steps))) }
    ensures err { IfErr result (λ e. (e ≡ Memory) ⊎ (e ≡ Start)) }
{
    let scripts = scripts_of(alloc, scenario, handlers)?;
    let scripts = with_replies(alloc, scripts)?;
    let host = Host::new(alloc, scenario.settings)?;
    match run_sessions(rt, alloc, host, scripts, &NoGate) {
        Ok((_host, _calls, transcripts)) => Ok(transcripts),
        Err(RunRefusal::Memory) => Err(RunFault::Memory),
        Err(RunRefusal::Start) => Err(RunFault::Start),
        Err(RunRefusal::TooMany) => unreachable!(),
    }
}

/// Makes the steps of the scenario as `run_threads` does, and returns the replies of each user with steps, by rising user.
///
/// # Errors
///
/// `Mismatch`, `Memory` and `Start`, as of `run_threads`.
pub fn replies_by_user<F: Decider + Send + Drop, R: Threads + Wait + Sync>(
    rt: &R,
    alloc: Global,
    scenario: &Scenario,
    handlers: Vec<Handler<F>>,
) -> Result<Vec<UserReplies>, RunFault>
    ensures replies { IfOk result (λ all. map (λ told. map answered told.1.items) all.items ≡ answers_by_scripts scenario.now) }
    ensures users { IfOk result (λ all. map (λ told. told.0) all.items ≡ map (λ s. s.0) (scripts_in scenario.now.steps)) }
    ensures mismatch { IsErrOf result Mismatch ↔ (handlers.items ≢ policies_in scenario.now.steps) }
    ensures err { IfErr result (λ e. (e ≡ Mismatch) ⊎ ((e ≡ Memory) ⊎ (e ≡ Start))) }
{
    if !obey(handlers.as_slice(), scenario.policies()) {
        return Err(RunFault::Mismatch);
    }
    let transcripts = transcripts_of(rt, alloc, scenario, handlers)?;
    let all = told_by(alloc, transcripts)?;
    Ok(all)
}
