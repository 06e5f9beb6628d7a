//! A run's lines with their steps.
ghost use Rattle.std.specs.Prelude.{ℕ, List, Option, Err, Some, ◌≡◌, ◌++◌, ◌⊎◌, [], map, false, IfErr, IfOk, OnOk};
ghost use Rattle.scenario_text.specs.Plan.{asked};
ghost use Rattle.scenario_runs.specs.Lines.{shows};
ghost use Rattle.scenario_runs.specs.Runs.{answered, answers_of, Writes};
ghost use Rattle.scenario_runs.specs.declared.running.RunFault.TheVariants.{Memory, Write as WriteFault};
ghost use Rattle.scenario_runs.specs.Parts.{Parted};
ghost use Rattle.std.specs.List.{flat_map, AllByRecursion};
ghost use Rattle.json_trace.specs.Traces.{answers_to, own_trace, traced_line, trace_shown};

use crate::lines::{StepPlace, push_line};
use crate::writing::Part;
use pid_blocks::Uid;
use scenario_runs::{RunFault, Scenario, USERS, count_reply, line_fault};
use std::alloc::Global;
use std::io::Write;
use step_types::{PlainStep, Reply};

/// Adds the line of a step to the part, and writes the part if it is full.
fn add_line<W: Write>(
    part: &mut Part,
    place: StepPlace,
    step: &PlainStep,
    reply: &Reply,
    writer: &mut W,
) -> Result<(), RunFault>
    ensures ok { OnOk result ((before : Option (List ℕ)) (rest all : List ℕ)
        → Parted before (W.contents writer.old) part.old.text.items ((traced_line place.number place.index (asked (place.user, step.now)) reply.now).text ++ rest) all part.old.is_begun
        → Parted before (W.contents writer.new) part.new.text.items rest all part.new.is_begun) }
    ensures err { IfErr result (λ e. (before : Option (List ℕ)) (rest all : List ℕ)
        → Parted before (W.contents writer.old) part.old.text.items ((traced_line place.number place.index (asked (place.user, step.now)) reply.now).text ++ rest) all part.old.is_begun
        → Writes (Err e) before (W.contents writer.new) all) }
    ensures kind { IfErr result (λ e. (e ≡ Memory) ⊎ (e ≡ WriteFault)) }
{
    if push_line(&mut part.text, place, step, reply).is_err() {
        return Err(line_fault(part.is_begun));
    }
    part.write_full(writer)
}

/// Tests whether a user's lines are shown, if all users' or only one user's are.
pub(crate) fn is_shown(user: &Option<Uid>, asking: Uid) -> bool
    ensures { result ≡ shows user.now asking }
{
    match user {
        Some(user) => asking == *user,
        None => true,
    }
}

/// Adds the lines of the user, or of all users, to the part. `replies` are those of the same users.
fn add_lines<W: Write>(
    scenario: &Scenario,
    replies: &[(Uid, Reply)],
    user: Option<Uid>,
    part: &mut Part,
    writer: &mut W,
) -> Result<(), RunFault>
    requires { map answered replies.now ≡ answers_to user (answers_of scenario.now) }
    ensures ok { OnOk result ((before : Option (List ℕ)) (rest all : List ℕ)
        → Parted before (W.contents writer.old) part.old.text.items (trace_shown user scenario.now ++ rest) all part.old.is_begun
        → Parted before (W.contents writer.new) part.new.text.items rest all part.new.is_begun) }
    ensures err { IfErr result (λ e. (before : Option (List ℕ)) (rest all : List ℕ)
        → Parted before (W.contents writer.old) part.old.text.items (trace_shown user scenario.now ++ rest) all part.old.is_begun
        → Writes (Err e) before (W.contents writer.new) all) }
    ensures kind { IfErr result (λ e. (e ≡ Memory) ⊎ (e ≡ WriteFault)) }
{
    let mut made = [0u64; USERS];
    let mut index = 0u64;
    let mut told = 0usize;
    let count = scenario.steps.len();
    for asked in scenario.steps.iter() {
        let (asking, step) = (asked.0, &asked.1);
        let number = count_reply(&mut made, asking);
        index = index.saturating_add(1);
        if is_shown(&user, asking) {
            let Some(reply) = replies.get(told) else {
                return Ok(());
            };
            told += 1;
            let place = StepPlace {
                user: asking,
                number,
                index,
            };
            add_line(part, place, step, &reply.1, writer)?;
        }
    }
    Ok(())
}

/// Returns the replies to the user, or all of them.
pub fn replies_to(mut replies: Vec<(Uid, Reply)>, user: Option<Uid>) -> Vec<(Uid, Reply)>
    ensures { map answered result.items ≡ answers_to user (map answered replies.items) }
{
    if let Some(user) = user {
        replies.retain(|reply| reply.0 == user);
    }
    replies
}

/// Writes the JSON lines of the user's replies, or of all users', each with its step, in the order of the steps. `replies`
/// are those of a run to the same users.
///
/// # Errors
///
/// `Memory` if memory ran out: then nothing was written. `Write` if the writer failed or took no byte, or memory ran out
/// once lines were written: then it has the beginning of the text.
pub fn write_trace<W: Write>(
    alloc: Global,
    scenario: &Scenario,
    replies: &[(Uid, Reply)],
    user: Option<Uid>,
    writer: &mut W,
) -> Result<(), RunFault>
    requires { map answered replies.now ≡ answers_to user (answers_of scenario.now) }
    ensures writes { Writes result (W.contents writer.old) (W.contents writer.new) (trace_shown user scenario.now) }
    ensures kind { IfErr result (λ e. (e ≡ Memory) ⊎ (e ≡ WriteFault)) }
{
    let mut part = Part::first(alloc)?;
    add_lines(scenario, replies, user, &mut part, writer)?;
    part.end(writer)
}

/// Writes the lines of `write_trace`, user by user. `replies` has users with all of their replies.
///
/// # Errors
///
/// Those of `write_trace`.
pub fn write_trace_by_user<W: Write>(
    alloc: Global,
    scenario: &Scenario,
    replies: &[(Uid, Vec<(Uid, Reply)>)],
    user: Option<Uid>,
    writer: &mut W,
) -> Result<(), RunFault>
    requires { AllByRecursion (λ told. map answered told.1.items ≡ answers_to (Some told.0) (answers_of scenario.now)) replies.now }
    ensures writes { Writes result (W.contents writer.old) (W.contents writer.new) (flat_map (λ told. own_trace user told.0 scenario.now) replies.now) }
    ensures kind { IfErr result (λ e. (e ≡ Memory) ⊎ (e ≡ WriteFault)) }
{
    let mut part = Part::first(alloc)?;
    for told in replies {
        if is_shown(&user, told.0) {
            add_lines(scenario, told.1.as_slice(), Some(told.0), &mut part, writer)?;
        }
    }
    part.end(writer)
}
