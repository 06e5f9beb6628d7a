//! Compares the threads' run of the scripts with a replay by one thread.

use super::scripts::{scripts, users};
use host_lock::{Entry, Journal};
use pid_blocks::Uid;
use requests::Host;
use sessions::{Script, Transcript};
use std::alloc::{AllocError, Global};
use stop_handlers::ByPolicy;
use test_kit::sees_same;
use trace_stop::Settings;

/// Returns whether an entry is the session's step at this index, with the reply that the session got.
fn is_at(entry: &Entry, script: &Script<ByPolicy>, transcript: &Transcript, place: usize) -> bool {
    let (Some(step), Some(reply)) = (script.steps.get(place), transcript.replies.get(place)) else {
        return false;
    };
    entry.uid == script.uid
        && entry.uid == transcript.uid
        && entry.step == step.plain()
        && entry.reply == *reply
}

/// Returns how many entries of the journal aren't their session's next step with its reply.
fn misplaced(
    alloc: Global,
    seed: u32,
    journal: &Journal,
    transcripts: &[Transcript],
) -> Result<usize, AllocError> {
    let scripts = scripts(alloc, seed)?;
    let mut made = vec![in alloc; 0usize; scripts.len()]?;
    let mut count: usize = 0;
    for place in 0..journal.len() {
        if let Some(entry) = journal.get(place) {
            let session = entry.session;
            let fits = match (
                made.as_mut_slice().get_mut(session),
                scripts.as_slice().get(session),
                transcripts.get(session),
            ) {
                (Some(next), Some(script), Some(transcript)) => {
                    let place = *next;
                    *next = place.wrapping_add(1);
                    is_at(entry, script, transcript, place)
                }
                _ => false,
            };
            if !fits {
                count = count.wrapping_add(1);
            }
        }
    }
    Ok(count)
}

/// Makes the users' entries, in order, on an unused host. Returns that host, and how many replies differ.
fn replay(
    alloc: Global,
    settings: Settings,
    journal: &Journal,
    users: &[Uid],
) -> Result<(Host<ByPolicy>, usize), AllocError> {
    let mut host = Host::new(alloc, settings)?;
    let mut differ: usize = 0;
    for place in 0..journal.len() {
        if let Some(entry) = journal.get(place) {
            if users.contains(&entry.uid) {
                let reply = host.step(alloc, entry.uid, entry.step.by_policy());
                if reply != entry.reply {
                    differ = differ.wrapping_add(1);
                }
            }
        }
    }
    Ok((host, differ))
}

/// Returns how often a run differs from a replay of only these users' entries: in the replies, and in the users' views at
/// the end.
fn differences_from(
    alloc: Global,
    host: &Host<ByPolicy>,
    journal: &Journal,
    users: &[Uid],
) -> Result<usize, AllocError> {
    let (replayed, mut count) = replay(alloc, host.settings(), journal, users)?;
    for user in users {
        if !sees_same(alloc, host, &replayed, *user)? {
            count = count.wrapping_add(1);
        }
    }
    Ok(count)
}

/// Returns how often the threads' run differs from a replay of the journal by one thread: in the sessions' steps and
/// replies, in the replies to all entries in order, in those to only one user's entries, and in the users' views at the
/// end.
pub fn differences(
    alloc: Global,
    seed: u32,
    host: &Host<ByPolicy>,
    journal: &Journal,
    transcripts: &[Transcript],
) -> Result<usize, AllocError> {
    let users = users(alloc, seed)?;
    let mut count = misplaced(alloc, seed, journal, transcripts)?;
    count = count.wrapping_add(differences_from(alloc, host, journal, users.as_slice())?);
    for user in users.iter() {
        count = count.wrapping_add(differences_from(alloc, host, journal, &[*user])?);
    }
    Ok(count)
}
