//! The line of a step: the step beside its reply.
ghost use Rattle.std.specs.Prelude.{◌≡◌, ◌∷◌, ◌++◌, [], codes, OnOk};
ghost use Rattle.open_sessions.specs.StepLines.{policy_of, step_keys};
ghost use Rattle.reply_json.specs.Objects.{member_tokens, natural, object_of, Puts};
ghost use Rattle.scenario_text.specs.Plan.{asked};
ghost use Rattle.json_trace.specs.Traces.{step_members, traced_line, traced_members};

use json::Writer;
use open_sessions::{policy_of, push_step};
use pid_blocks::Uid;
use reply_json::{push_answer, push_number, push_place};
use std::alloc::{AllocError, Global};
use std::mem;
use step_types::{PlainStep, Reply};

/// The place of a step among others.
#[derive(Clone, Copy, Debug)]
pub(crate) struct StepPlace {
    pub(crate) user: Uid,
    /// Its number among the user's steps, from 1.
    pub(crate) number: u64,
    /// Its number among all users' steps, from 1.
    pub(crate) index: u64,
}

#[tactic(auto, using(reply_json::proofs::TokenLemmas::put_rules))]
fn push_asked(out: &mut Writer, step: &PlainStep) -> Result<(), AllocError>
    ensures { Puts result out.old out.new (member_tokens ((codes "asked", object_of (step_keys step.now (policy_of step.now))) ∷ [])) }
{
    out.key("asked")?;
    out.begin_object()?;
    push_step(out, step, policy_of(step))?;
    out.end_object()
}

#[tactic(auto, using(reply_json::proofs::TokenLemmas::put_rules))]
fn push_step_members(out: &mut Writer, index: u64, step: &PlainStep) -> Result<(), AllocError>
    ensures { Puts result out.old out.new (member_tokens (step_members index step.now)) }
{
    push_number(out, "index", index)?;
    push_asked(out, step)
}

/// Writes all members of the step's line.
#[tactic(auto, using(reply_json::proofs::TokenLemmas::put_rules))]
pub(crate) fn push_members(
    out: &mut Writer,
    place: StepPlace,
    step: &PlainStep,
    reply: &Reply,
) -> Result<(), AllocError>
    ensures { Puts result out.old out.new (member_tokens (traced_members place.number place.index (asked (place.user, step.now)) reply.now)) }
{
    push_place(out, place.user, place.number)?;
    push_step_members(out, place.index, step)?;
    push_answer(out, reply)
}

/// Adds the line of the step to the text. An error means out of memory, and then the text is any.
#[tactic(auto, using(reply_json::proofs::TokenLemmas::put_rules))]
pub(crate) fn push_line(
    text: &mut Vec<u8>,
    place: StepPlace,
    step: &PlainStep,
    reply: &Reply,
) -> Result<(), AllocError>
    ensures { OnOk result (text.new.items ≡ text.old.items ++ (traced_line place.number place.index (asked (place.user, step.now)) reply.now).text) }
{
    let alloc = *text.allocator();
    let mut out = Writer::new(mem::replace(text, Vec::new(alloc)));
    out.begin_object()?;
    push_members(&mut out, place, step, reply)?;
    out.end_object()?;
    *text = out.into_inner();
    text.push(b'\n')?;
    Ok(())
}
