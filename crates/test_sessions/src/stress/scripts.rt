//! The scripts of a run.

ghost use Rattle.std.specs.Prelude.{◌<◌, ◌≤◌, All, IfOk};
ghost use Rattle.sessions.specs.Runs.{IsShort};

use super::writer::Writer;
use pid_blocks::Uid;
use requests::PlainStep;
use sessions::Script;
use std::alloc::{AllocError, Global};
use stop_handlers::ByPolicy;
use test_kit::Dice;
use trace_stop::Settings;

/// The number of users of a run.
const USERS: u32 = 40;

/// The number of steps of a session.
const STEPS: usize = 100;

/// Returns the settings of a run: whether a debugger's end kills its tracees.
pub fn settings(seed: u32) -> Settings {
    if seed % 2 == 0 {
        Settings::standard()
    } else {
        Settings::detach_on_exit()
    }
}

/// Returns the user at this index of a run. In ten runs each of the 64 users has its turn.
fn user_at(seed: u32, place: u32) -> Uid {
    let slot = (place % 64 + 8 * (seed % 64)) % 64;
    match Uid::new(1001 + slot) {
        Ok(user) => user,
        Err(_) => unreachable!(),
    }
}

/// Returns the users of a run.
pub fn users(alloc: Global, seed: u32) -> Result<Vec<Uid>, AllocError> {
    (0..USERS).map(|place| user_at(seed, place)).collect(alloc)
}

/// Returns how many sessions the user at this index has. Ten users in a row have 16.
fn sessions_at(place: u32) -> usize
    ensures least { 0 < result }
    ensures most { result ≤ 3 }
{
    match place % 10 {
        0..=4 => 1,
        5..=8 => 2,
        _ => 3,
    }
}

/// Returns `count` steps of a user.
fn steps_of(
    alloc: Global,
    seed: u32,
    user: Uid,
    count: usize,
) -> Result<Vec<PlainStep>, AllocError> {
    let dice = Dice::new(u64::from(seed) * 10000 + u64::from(user.get()));
    let mut writer = Writer::new(alloc, dice, user, settings(seed))?;
    writer.steps(alloc, count)
}

/// Returns the script of one of a user's sessions, which take the steps in turn.
fn script_of(
    alloc: Global,
    uid: Uid,
    steps: &[PlainStep],
    sessions: usize,
    turn: usize,
) -> Result<Script<ByPolicy>, AllocError>
    requires { 0 < sessions }
    ensures { IfOk result IsShort }
{
    let mut own = Vec::new(alloc);
    for (place, step) in steps.iter().enumerate() {
        if place % sessions == turn {
            own.push(step.by_policy())?;
        }
    }
    own.truncate(STEPS);
    Ok(Script { uid, steps: own })
}

/// Returns the scripts of a run, always the same ones for a seed. Some users have several.
pub fn scripts(alloc: Global, seed: u32) -> Result<Vec<Script<ByPolicy>>, AllocError>
    ensures { IfOk result (λ scripts. All IsShort scripts.items) }
{
    let mut scripts = Vec::new(alloc);
    for place in 0..USERS {
        let user = user_at(seed, place);
        let sessions = sessions_at(place);
        let steps = steps_of(alloc, seed, user, sessions * STEPS)?;
        for turn in 0..sessions {
            scripts.push(script_of(alloc, user, steps.as_slice(), sessions, turn)?)?;
        }
    }
    Ok(scripts)
}
