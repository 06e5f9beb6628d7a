//! Scripts of spawns, and their replies.

ghost use Rattle.std.specs.Prelude.{◌<◌, ◌≤◌, IfSome, All};
ghost use Rattle.sessions.specs.Runs.{IsShort};

use crate::hosts::{check_entry, check_entry_replies, spawns};
use host_lock::{Journal, MAX_CALLS};
use pid_blocks::Uid;
use requests::Step;
use sessions::{Script, Transcript};
use std::alloc::Global;
use stop_handlers::ByPolicy;
use test_kit::{TestError, check_replies, expect, rows_of};

/// Returns a script of `count` spawns of the user.
fn spawn_often(alloc: Global, uid: Uid, count: u32) -> Option<Script<ByPolicy>>
    ensures { IfSome result (λ s. IsShort s) }
{
    let mut steps = Vec::new(alloc);
    for _ in 0..count {
        steps.push(Step::Spawn).ok()?;
    }
    if steps.len() > MAX_CALLS as usize {
        return None;
    }
    Some(Script { uid, steps })
}

/// Returns a script of `count` spawns for each of the users.
pub fn spawn_each(alloc: Global, users: &[Uid], count: u32) -> Option<Vec<Script<ByPolicy>>>
    ensures { IfSome result (λ v. All IsShort v.items) }
{
    let mut scripts = Vec::new(alloc);
    for uid in users {
        scripts.push(spawn_often(alloc, *uid, count)?).ok()?;
    }
    Some(scripts)
}

/// Checks that the transcripts are of `users` users from 1001 on, each with `count` spawns of the user's first numbers.
pub fn check_own(
    alloc: Global,
    transcripts: &[Transcript],
    users: u32,
    count: u32,
) -> Result<(), TestError>
    requires { (users ≤ 64) × (count < 65000) }
{
    let is_whole = transcripts.len() == users as usize;
    expect(is_whole, "there are more or fewer transcripts than users")?;
    for slot in 0..users {
        let Some(transcript) = transcripts.get(slot as usize) else {
            return Err(TestError::Wrong("a transcript is missing"));
        };
        let user = Uid::new(1001 + slot)?;
        expect(transcript.uid == user, "a transcript is of another user")?;
        let text = spawns(alloc, user, 1000 + 1000 * slot, 100000 + 4000 * slot, count)?;
        let lines = rows_of(alloc, text.as_str())?;
        check_replies(alloc, lines.as_slice(), transcript.replies.as_slice())?;
    }
    Ok(())
}

/// Checks that the user's two scripts made `each` spawns each, which got the user's first numbers in the journal's order.
pub fn check_shared(
    alloc: Global,
    journal: &Journal,
    transcripts: &[Transcript],
    user: Uid,
    each: u32,
) -> Result<(), TestError>
    requires { each < 1000 }
{
    let text = spawns(alloc, user, 1000, 100000, 2 * each)?;
    let lines = rows_of(alloc, text.as_str())?;
    let is_whole = journal.len() == lines.len() && transcripts.len() == 2;
    expect(is_whole, "there are more or fewer entries than calls")?;
    for (place, line) in lines.iter().enumerate() {
        let Some(entry) = journal.get(place) else {
            return Err(TestError::Wrong("an entry is missing"));
        };
        check_entry(alloc, entry, line, None)?;
    }
    for (session, transcript) in transcripts.iter().enumerate() {
        let replies = transcript.replies.as_slice();
        let is_own = transcript.uid == user && replies.len() == each as usize;
        expect(is_own, "a transcript is of another script")?;
        check_entry_replies(alloc, journal, session, replies)?;
    }
    Ok(())
}
