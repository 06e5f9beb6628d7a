//! Signals and wait statuses.
ghost use Rattle.std.specs.Prelude.{◌≡◌};
ghost use Rattle.signals.specs.Names.{signal_name};
ghost use Rattle.step_types.specs.declared.StatusKind.TheVariants.{Continued};
ghost use Rattle.step_types.specs.Status.{word, ended};
ghost use Rattle.reply_json.specs.Objects.{member_tokens, Puts};
ghost use Rattle.reply_json.specs.Replies.{named_signal, status_members, word_members};

use crate::members::{push_number, push_string};
use json::Writer;
use signals::Signal;
use std::alloc::AllocError;
use step_types::{Status, StatusKind};

/// Writes a signal: its name as the member `name`, and its number.
pub(crate) fn push_signal(out: &mut Writer, name: &str, signal: Signal) -> Result<(), AllocError>
    ensures { Puts result out.old out.new (member_tokens (named_signal name.now signal)) }
{
    push_string(out, name, signal.name())?;
    push_number(out, "number", u64::from(signal.number()))
}

/// Writes that a process continued.
fn push_continued(out: &mut Writer) -> Result<(), AllocError>
    ensures { Puts result out.old out.new (member_tokens (status_members Continued)) }
{
    out.key("continued")?;
    out.boolean(true)
}

/// Writes the members of a kind of status.
fn push_kind(out: &mut Writer, kind: StatusKind) -> Result<(), AllocError>
    ensures { Puts result out.old out.new (member_tokens (status_members kind)) }
{
    match kind {
        StatusKind::Exited(code) => push_number(out, "exited", u64::from(code)),
        StatusKind::Signaled(signal) => push_signal(out, "signaled", signal),
        StatusKind::Stopped(signal) => push_signal(out, "stopped", signal),
        StatusKind::Continued => push_continued(out),
    }
}

/// Writes a status: its word, and the members of its kind.
pub(crate) fn push_status(out: &mut Writer, status: &Status) -> Result<(), AllocError>
    ensures { Puts result out.old out.new (member_tokens (word_members (word status.now) status.now)) }
{
    push_number(out, "word", u64::from(status.word()))?;
    push_kind(out, status.kind())
}

/// Returns the name of the signal with this number, or an empty text if no signal has it.
#[tactic(auto, using(crate::proofs::SignalLemmas::no_name))]
fn name_of(number: u32) -> &'static str
    ensures { result.now ≡ signal_name number }
{
    match Signal::new(number) {
        Ok(signal) => signal.name(),
        Err(_) => "",
    }
}

/// Writes the end of a process, from its status word.
pub(crate) fn push_end(out: &mut Writer, word: u32) -> Result<(), AllocError>
    ensures { Puts result out.old out.new (member_tokens (word_members word (ended word))) }
{
    push_number(out, "word", u64::from(word))?;
    if word % 256 == 0 {
        return push_number(out, "exited", u64::from(word / 256));
    }
    push_string(out, "signaled", name_of(word))?;
    push_number(out, "number", u64::from(word))
}
