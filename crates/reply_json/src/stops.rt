//! Stops and the decisions of handlers.
ghost use Rattle.std.specs.Prelude.{[], ◌∷◌, codes};
ghost use Rattle.json.specs.Json.{string};
ghost use Rattle.reply_json.specs.Objects.{object_of, member_tokens, Puts};
ghost use Rattle.reply_json.specs.Replies.{call_members, info_members, view_members, index_of, pass_of, decision_members, flags_of, signals_of};

use crate::arrays::{push_flags, push_signals};
use crate::members::{push_number, push_string};
use crate::statuses::push_signal;
use event_masks::StopFlags;
use json::Writer;
use signals::Pass;
use std::alloc::AllocError;
use step_types::LwpInfo;
use stop_handlers::{Decision, StopView};

/// Writes the flags of a stop.
pub(crate) fn push_stop_flags(out: &mut Writer, flags: StopFlags) -> Result<(), AllocError>
    ensures { Puts result out.old out.new (member_tokens (flags_of flags ∷ [])) }
{
    push_flags(out, "flags", flags)
}

/// Writes the child that a stop reports, and the code of the call.
fn push_call(out: &mut Writer, child: u32, code: u32) -> Result<(), AllocError>
    ensures { Puts result out.old out.new (member_tokens (call_members child code)) }
{
    push_number(out, "child", u64::from(child))?;
    push_number(out, "code", u64::from(code))
}

/// Writes the signals, the child and the call that PT_LWPINFO reported.
fn push_rest(out: &mut Writer, info: &LwpInfo) -> Result<(), AllocError>
    ensures { Puts result out.old out.new (member_tokens ((codes "mask", signals_of info.now.sigmask)
        ∷ (codes "pending", signals_of info.now.siglist) ∷ call_members info.now.child info.now.code)) }
{
    push_signals(out, "mask", info.sigmask)?;
    push_signals(out, "pending", info.siglist)?;
    push_call(out, info.child, info.code)
}

/// Writes what PT_LWPINFO reported.
pub(crate) fn push_info(out: &mut Writer, info: &LwpInfo) -> Result<(), AllocError>
    ensures { Puts result out.old out.new (member_tokens (info_members info.now)) }
{
    push_number(out, "lwp", u64::from(info.tid.get()))?;
    push_string(out, "event", info.event.name())?;
    push_stop_flags(out, info.flags)?;
    push_rest(out, info)
}

/// Writes the members of a stop as a handler saw it.
fn push_view(out: &mut Writer, view: &StopView) -> Result<(), AllocError>
    ensures { Puts result out.old out.new (member_tokens (view_members view.now)) }
{
    push_number(out, "lwp", u64::from(view.tid.get()))?;
    push_signal(out, "signal", view.sig)?;
    push_stop_flags(out, view.flags)?;
    push_call(out, view.child, view.code)
}

/// Writes the stop that the handlers were asked about.
pub(crate) fn push_at(out: &mut Writer, view: &StopView) -> Result<(), AllocError>
    ensures { Puts result out.old out.new (member_tokens ((codes "at", object_of (view_members view.now)) ∷ [])) }
{
    out.key("at")?;
    out.begin_object()?;
    push_view(out, view)?;
    out.end_object()
}

/// Writes the index of the deciding handler.
pub(crate) fn push_index(out: &mut Writer, index: Option<u32>) -> Result<(), AllocError>
    ensures { Puts result out.old out.new (member_tokens ((codes "by", index_of index) ∷ [])) }
{
    out.key("by")?;
    match index {
        Some(index) => out.u64(u64::from(index)),
        None => out.null(),
    }
}

/// Writes the signal that is passed on.
fn push_pass(out: &mut Writer, pass: Pass) -> Result<(), AllocError>
    ensures { Puts result out.old out.new (member_tokens ((codes "pass", pass_of pass) ∷ [])) }
{
    out.key("pass")?;
    match pass.signal() {
        Some(signal) => {
            out.begin_object()?;
            push_signal(out, "signal", signal)?;
            out.end_object()
        }
        None => out.null(),
    }
}

/// Writes how the process is resumed, and the signal that is passed on.
fn push_resumed(out: &mut Writer, name: &str, pass: Pass) -> Result<(), AllocError>
    ensures { Puts result out.old out.new (member_tokens ((codes "decision", string name.now) ∷ (codes "pass", pass_of pass) ∷ [])) }
{
    push_string(out, "decision", name)?;
    push_pass(out, pass)
}

/// Writes the decision.
pub(crate) fn push_decision(out: &mut Writer, decision: Decision) -> Result<(), AllocError>
    ensures { Puts result out.old out.new (member_tokens (decision_members decision)) }
{
    match decision {
        Decision::Decline => push_string(out, "decision", "decline"),
        Decision::Leave => push_string(out, "decision", "leave"),
        Decision::Continue(pass) => push_resumed(out, "continue", pass),
        Decision::Detach(pass) => push_resumed(out, "detach", pass),
        Decision::Kill => push_string(out, "decision", "kill"),
    }
}
