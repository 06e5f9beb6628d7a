//! Runs mixed scripts of many users in threads on one host, again and again, and compares each run with a replay of its
//! journal by one thread.

mod compare;
mod scripts;
mod writer;

use compare::differences;
use host_lock::Journal;
use pid_blocks::Uid;
use requests::Host;
use scripts::{scripts, settings};
use sessions::{Gate, Transcript, run_sessions};
use std::alloc::Global;
use std::sync::Wait;
use std::thread::Threads;
use stop_handlers::ByPolicy;
use test_kit::{TestError, expect};

const RUNS: u32 = 10;

/// A gate that does nothing.
#[derive(Drop)]
struct Open;

impl Gate for Open {
    fn before(&self, _user: Uid, _index: u32) {}

    fn after(&self, _user: Uid, _index: u32) {}
}

/// How much was compared in runs, and the number of differences.
#[derive(Clone, Copy, Default, Drop)]
struct Tally {
    /// How many sessions each run has.
    sessions: usize,
    steps: usize,
    answered: usize,
    differ: usize,
}

impl Tally {
    /// Returns the tally with that of a further run added.
    fn with(self, run: Tally) -> Tally {
        Tally {
            sessions: run.sessions,
            steps: self.steps.wrapping_add(run.steps),
            answered: self.answered.wrapping_add(run.answered),
            differ: self.differ.wrapping_add(run.differ),
        }
    }
}

/// Returns how many steps all sessions made.
fn steps_of(transcripts: &[Transcript]) -> usize {
    let mut steps: usize = 0;
    for transcript in transcripts {
        steps = steps.wrapping_add(transcript.replies.len());
    }
    steps
}

/// Compares the results of a run.
fn tally_of(
    alloc: Global,
    seed: u32,
    host: &Host<ByPolicy>,
    journal: &Journal,
    transcripts: &[Transcript],
) -> Result<Tally, TestError> {
    let differ = differences(alloc, seed, host, journal, transcripts)?;
    Ok(Tally {
        sessions: transcripts.len(),
        steps: steps_of(transcripts),
        answered: journal.len(),
        differ,
    })
}

/// The results of a run: the host, the journal of its calls, and the replies to each session.
type Left = (Host<ByPolicy>, Journal, Vec<Transcript>);

/// Runs the scripts in threads on an unused host.
fn run<R: Threads + Wait + Sync>(rt: &R, alloc: Global, seed: u32) -> Result<Left, TestError> {
    let host = Host::new(alloc, settings(seed))?;
    let scripts = scripts(alloc, seed)?;
    match run_sessions(rt, alloc, host, scripts, &Open) {
        Ok(left) => Ok(left),
        Err(_) => Err(TestError::Wrong("a run is refused")),
    }
}

/// Makes a run, and compares it with a replay of its journal by one thread.
fn compared<R: Threads + Wait + Sync>(
    rt: &R,
    alloc: Global,
    seed: u32,
) -> Result<Tally, TestError> {
    let (host, journal, transcripts) = run(rt, alloc, seed)?;
    tally_of(alloc, seed, &host, &journal, transcripts.as_slice())
}

/// Makes the runs, and prints how much was compared, which is the same in each run of the program.
pub fn check<R: Print + Threads + Wait + Sync>(rt: &R, alloc: Global) -> Result<(), TestError> {
    let mut all = Tally::default();
    for seed in 0..RUNS {
        all = all.with(compared(rt, alloc, seed)?);
    }
    let Tally {
        sessions,
        steps,
        answered,
        differ,
    } = all;
    println!(rt;
        "{RUNS} runs, {sessions} sessions, {steps} steps, {answered} answered, {differ} differ"
    )?;
    expect(differ == 0, "a run differs from a replay of its journal")
}
