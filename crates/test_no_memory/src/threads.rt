//! Sessions in threads of their own. A run is refused if memory runs out or a thread can't be started.

ghost use Rattle.std.specs.Prelude.{All, IfOk};
ghost use Rattle.sessions.specs.Runs.{IsShort};

use crate::steps::{Case, answer, new_host};
use host_lock::{Entry, Journal};
use pid_blocks::Uid;
use requests::{Host, Reply};
use scenario_runs::Scenario;
use sessions::{Gate, RunRefusal, Script, Transcript, run_sessions};
use std::alloc::{AllocError, Global};
use std::sync::Wait;
use std::sync::atomic::{AtomicUsize, Ordering};
use std::thread::Threads;
use stop_handlers::ByPolicy;
use test_kit::{TestError, expect};

/// The most steps of a script.
const MAX_STEPS: usize = 1000;

/// The number of calls that were begun, and of those that were answered.
#[derive(Drop)]
struct Counts {
    begun: AtomicUsize,
    answered: AtomicUsize,
}

impl Counts {
    fn new() -> Counts {
        Counts {
            begun: AtomicUsize::new(0),
            answered: AtomicUsize::new(0),
        }
    }

    /// Returns the number of calls, and checks that each that was begun was answered.
    fn calls(&self) -> Result<usize, TestError> {
        let begun = self.begun.load(Ordering::SeqCst);
        let answered = self.answered.load(Ordering::SeqCst);
        expect(begun == answered, "a worker hasn't gone to its end")?;
        Ok(begun)
    }
}

impl Gate for Counts {
    fn before(&self, _user: Uid, _index: u32) {
        self.begun.fetch_add(1, Ordering::SeqCst);
    }

    fn after(&self, _user: Uid, _index: u32) {
        self.answered.fetch_add(1, Ordering::SeqCst);
    }
}

/// Returns the script of the user's steps.
fn script(alloc: Global, scenario: &Scenario, uid: Uid) -> Result<Script<ByPolicy>, AllocError>
    ensures { IfOk result IsShort }
{
    let mut steps = Vec::new(alloc);
    for step in scenario.steps.iter() {
        if step.0 == uid {
            steps.push(step.1.by_policy())?;
        }
    }
    steps.truncate(MAX_STEPS);
    Ok(Script { uid, steps })
}

/// Returns a script for each user.
fn scripts(case: &Case<'_>) -> Result<Vec<Script<ByPolicy>>, AllocError>
    ensures { IfOk result (λ scripts. All IsShort scripts.items) }
{
    let mut scripts = Vec::with_capacity(case.alloc, 2)?;
    scripts.push(script(case.alloc, case.scenario, case.first)?)?;
    scripts.push(script(case.alloc, case.scenario, case.second)?)?;
    Ok(scripts)
}

/// Does the same, and retries while memory runs out.
fn scripts_of(case: &Case<'_>) -> Result<Vec<Script<ByPolicy>>, TestError>
    ensures { IfOk result (λ scripts. All IsShort scripts.items) }
{
    retry!(Ok(scripts) = scripts(case))
}

/// The results of the sessions.
#[derive(Drop)]
struct Left {
    host: Host<ByPolicy>,
    journal: Journal,
    transcripts: Vec<Transcript>,
}

/// Runs the scripts on an unused host. `None` if that is refused; workers that were started have ended by then.
fn ran<R: Threads + Wait + Sync>(
    rt: &R,
    case: &Case<'_>,
    gate: &Counts,
) -> Result<Option<Left>, TestError> {
    let scripts = scripts_of(case)?;
    let scenario = case.scenario;
    let host = new_host(case.alloc, scenario.settings)?;
    match run_sessions(rt, case.alloc, host, scripts, gate) {
        Ok((host, journal, transcripts)) => Ok(Some(Left {
            host,
            journal,
            transcripts,
        })),
        Err(RunRefusal::TooMany) => Err(TestError::Wrong("two scripts are too many")),
        Err(RunRefusal::Memory | RunRefusal::Start) => Ok(None),
    }
}

/// Returns how many steps were not answered by ENOMEM.
fn answered(transcript: &Transcript) -> usize {
    let replies = transcript.replies.iter();
    replies.filter(|reply| !reply.is_memory()).count()
}

/// Returns how many steps of all scripts were not answered by ENOMEM.
fn all_answered(transcripts: &[Transcript]) -> usize {
    let mut count: usize = 0;
    for transcript in transcripts {
        count = count.wrapping_add(answered(transcript));
    }
    count
}

/// Returns the index of the session's next entry, from an index on.
fn next_entry(journal: &Journal, session: usize, from: usize) -> Option<usize> {
    for place in from..journal.len() {
        if journal.get(place)?.session == session {
            return Some(place);
        }
    }
    None
}

/// Returns whether the entry at this index has this reply.
fn has_reply(journal: &Journal, place: usize, reply: &Reply) -> bool {
    matches!(journal.get(place), Some(entry) if entry.reply == *reply)
}

/// Returns whether the session's entries have the replies of the transcript other than ENOMEM, in order.
fn is_told(journal: &Journal, session: usize, transcript: &Transcript) -> bool {
    let mut from: usize = 0;
    for reply in transcript.replies.iter() {
        if !reply.is_memory() {
            let Some(place) = next_entry(journal, session, from) else {
                return false;
            };
            if !has_reply(journal, place, reply) {
                return false;
            }
            from = place.wrapping_add(1);
        }
    }
    true
}

/// Checks that the journal has only the calls of all scripts that were not answered by ENOMEM.
fn check_transcripts(journal: &Journal, transcripts: &[Transcript]) -> Result<(), TestError> {
    expect(
        all_answered(transcripts) == journal.len(),
        "a refused call has an entry",
    )?;
    for (session, transcript) in transcripts.iter().enumerate() {
        let is_told = is_told(journal, session, transcript);
        expect(is_told, "a transcript has other replies")?;
    }
    Ok(())
}

/// Checks that the entry's step has its reply on the host.
fn check_entry(alloc: Global, host: &mut Host<ByPolicy>, entry: &Entry) -> Result<(), TestError> {
    let reply = answer(alloc, host, entry.uid, &entry.step)?;
    expect(reply == entry.reply, "an entry has another reply")
}

/// Makes the journal's steps one after another on a new host. Checks that the replies and the users' views are the same.
fn check_replay(case: &Case<'_>, left: &Left) -> Result<(), TestError> {
    let scenario = case.scenario;
    let mut other = new_host(case.alloc, scenario.settings)?;
    for place in 0..left.journal.len() {
        if let Some(entry) = left.journal.get(place) {
            check_entry(case.alloc, &mut other, entry)?;
        }
    }
    case.check_hosts(&left.host, &other, "the journal leaves another host")
}

/// Checks that the results are consistent, and that each of the scenario's steps was a call.
fn check_left(case: &Case<'_>, calls: usize, left: &Left) -> Result<(), TestError> {
    expect(
        calls == case.scenario.bare_steps().len(),
        "a step isn't made",
    )?;
    check_transcripts(&left.journal, left.transcripts.as_slice())?;
    check_replay(case, left)
}

/// Returns whether the sessions ran, and checks their results.
fn is_run<R: Threads + Wait + Sync>(rt: &R, case: &Case<'_>) -> Result<bool, TestError> {
    let gate = Counts::new();
    let ran = ran(rt, case, &gate)?;
    let calls = gate.calls()?;
    let Some(left) = ran else {
        return Ok(false);
    };
    check_left(case, calls, &left)?;
    Ok(true)
}

/// Checks that the sessions run, and retries while that is refused.
pub fn check<R: Threads + Wait + Sync>(rt: &R, case: &Case<'_>) -> Result<(), TestError> {
    retry!(Some(done) = is_run(rt, case)?.then_some(()))
}
