//! The JSON object of a reply.
ghost use Rattle.std.specs.Prelude.{◌≡◌, ◌∷◌, ◌++◌, [], codes, Some, IfOk, OnOk, string_bytes};
ghost use Rattle.json.specs.Json.{document};
ghost use Rattle.json.specs.Lex.{tokens};
ghost use Rattle.json.specs.Print.{print};
ghost use Rattle.step_types.specs.declared.Reply.TheVariants as reply;
ghost use Rattle.reply_json.specs.Objects.{json_text, member_tokens, natural, object_of, Puts};
ghost use Rattle.reply_json.specs.Replies.{view_members, index_of, decision_members, place_members, answer_members, reply_word, reply_members, reply_value, reply_tokens, reply_json, refusal_value};

use crate::arrays::{push_flags, push_numbers};
use crate::members::{push_number, push_string};
use crate::statuses::{push_end, push_signal, push_status};
use crate::stops::{push_at, push_decision, push_index, push_info, push_stop_flags};
use event_masks::StopFlags;
use json::Writer;
use pid_blocks::{Errno, Pid, Tid, Uid};
use signals::Signal;
use std::alloc::{AllocError, Global};
use std::mem;
use step_types::{Reply, Status};
use stop_handlers::{Decision, StopView};

/// The initial capacity for the text of an object, in bytes: most fit.
const ROOM: usize = 256;

/// Returns the reply's word.
fn word_of(reply: &Reply) -> &'static str
    ensures { result.now ≡ reply_word reply.now }
{
    match reply {
        Reply::Done => "ok",
        Reply::New { .. } => "new",
        Reply::Number(_) => "number",
        Reply::Status { .. } => "status",
        Reply::Nothing => "nothing",
        Reply::Info(_) => "info",
        Reply::Lwps(_) => "lwps",
        Reply::Pids(_) => "pids",
        Reply::Mask(_) => "mask",
        Reply::Handled { .. } => "handled",
        Reply::Stopped { .. } => "stopped",
        Reply::Caught(_) => "caught",
        Reply::Ended(_) => "ended",
        Reply::Held => "held",
        Reply::Errno(_) => "error",
    }
}

/// Writes the numbers of a new process or LWP.
fn push_new(out: &mut Writer, pid: Pid, tid: Tid) -> Result<(), AllocError>
    ensures { Puts result out.old out.new (member_tokens (reply_members (reply.New pid tid))) }
{
    push_number(out, "pid", u64::from(pid.get()))?;
    push_number(out, "lwp", u64::from(tid.get()))
}

/// Writes what a wait reported.
fn push_waited(out: &mut Writer, pid: Pid, status: &Status) -> Result<(), AllocError>
    ensures { Puts result out.old out.new (member_tokens (reply_members (reply.Status pid status.now))) }
{
    push_number(out, "pid", u64::from(pid.get()))?;
    push_status(out, status)
}

/// Writes the stop of an LWP.
fn push_stopped(out: &mut Writer, tid: Tid, sig: Signal, flags: StopFlags) -> Result<(), AllocError>
    ensures { Puts result out.old out.new (member_tokens (reply_members (reply.Stopped tid sig flags))) }
{
    push_number(out, "lwp", u64::from(tid.get()))?;
    push_signal(out, "signal", sig)?;
    push_stop_flags(out, flags)
}

/// Writes the stop that handlers were asked about, the index of the deciding one, and its decision.
fn push_handling(
    out: &mut Writer,
    view: &StopView,
    index: Option<u32>,
    decision: Decision,
) -> Result<(), AllocError>
    ensures { Puts result out.old out.new (member_tokens ((codes "at", object_of (view_members view.now))
        ∷ (codes "by", index_of index) ∷ decision_members decision)) }
{
    push_at(out, view)?;
    push_index(out, index)?;
    push_decision(out, decision)
}

/// Writes what a wait reported, and what handlers decided about it.
#[tactic(auto, using(crate::proofs::TokenLemmas::put_rules))]
fn push_handled(
    out: &mut Writer,
    pid: Pid,
    status: &Status,
    view: &StopView,
    index: Option<u32>,
    decision: Decision,
) -> Result<(), AllocError>
    ensures { Puts result out.old out.new (member_tokens (reply_members (reply.Handled pid status.now view.now index decision))) }
{
    push_waited(out, pid, status)?;
    push_handling(out, view, index, decision)
}

/// Writes an error's name and number.
fn push_errno(out: &mut Writer, errno: Errno) -> Result<(), AllocError>
    ensures { Puts result out.old out.new (member_tokens (reply_members (reply.Errno errno))) }
{
    push_string(out, "errno", errno.name())?;
    push_number(out, "number", u64::from(errno.number()))
}

/// Writes the members after the reply's word.
fn push_members(out: &mut Writer, reply: &Reply) -> Result<(), AllocError>
    ensures { Puts result out.old out.new (member_tokens (reply_members reply.now)) }
{
    match reply {
        Reply::Done | Reply::Nothing | Reply::Held => Ok(()),
        Reply::New { pid, tid } => push_new(out, *pid, *tid),
        Reply::Number(number) => push_number(out, "number", u64::from(*number)),
        Reply::Status { pid, status } => push_waited(out, *pid, status),
        Reply::Info(info) => push_info(out, info),
        Reply::Lwps(tids) => push_numbers(out, "lwps", tids.as_slice()),
        Reply::Pids(pids) => push_numbers(out, "pids", pids.as_slice()),
        Reply::Mask(mask) => push_flags(out, "events", *mask),
        Reply::Handled {
            pid,
            status,
            view,
            index,
            decision,
        } => push_handled(out, *pid, status, view, *index, *decision),
        Reply::Stopped { tid, sig, flags } => push_stopped(out, *tid, *sig, *flags),
        Reply::Caught(sig) => push_signal(out, "signal", *sig),
        Reply::Ended(word) => push_end(out, *word),
        Reply::Errno(errno) => push_errno(out, *errno),
    }
}

/// Writes the user and the step's number.
pub fn push_place(out: &mut Writer, uid: Uid, number: u64) -> Result<(), AllocError>
    ensures { Puts result out.old out.new (member_tokens (place_members uid number)) }
{
    push_number(out, "user", u64::from(uid.get()))?;
    push_number(out, "step", number)
}

/// Writes the reply's word, and the members after it.
#[tactic(auto, using(crate::proofs::TokenLemmas::put_rules))]
pub fn push_answer(out: &mut Writer, reply: &Reply) -> Result<(), AllocError>
    ensures { Puts result out.old out.new (member_tokens (answer_members reply.now)) }
{
    push_string(out, "reply", word_of(reply))?;
    push_members(out, reply)
}

/// Writes all members of the reply's object.
#[tactic(auto, using(crate::proofs::TokenLemmas::put_rules))]
fn push_all(out: &mut Writer, uid: Uid, number: u64, reply: &Reply) -> Result<(), AllocError>
    ensures { Puts result out.old out.new (member_tokens (place_members uid number ++ answer_members reply.now)) }
{
    push_place(out, uid, number)?;
    push_answer(out, reply)
}

/// Writes the reply's object.
#[tactic(auto, using(crate::proofs::TokenLemmas::put_rules))]
fn push_object(out: &mut Writer, uid: Uid, number: u64, reply: &Reply) -> Result<(), AllocError>
    ensures { Puts result out.old out.new (reply_tokens uid number reply.now) }
{
    out.begin_object()?;
    push_all(out, uid, number, reply)?;
    out.end_object()
}

/// Returns the text of a writer's tokens.
fn text_of(out: Writer) -> String
    requires { out.before ≡ [] }
    ensures text { string_bytes result ≡ print out.tokens }
    ensures reads_back { tokens (print out.tokens) ≡ out.tokens }
{
    String::from_utf8(out.into_inner()).unwrap()
}

/// Writes the objects of replies, one after another in the same memory.
#[derive(Drop)]
pub struct ObjectWriter {
    bytes: Vec<u8>,
}

impl ObjectWriter {
    /// Creates a writer. It takes no memory before its first object.
    pub fn new(alloc: Global) -> ObjectWriter {
        ObjectWriter {
            bytes: Vec::new(alloc),
        }
    }

    /// Creates a writer with room for objects of so many bytes. An error means out of memory.
    pub fn with_capacity(alloc: Global, bytes: usize) -> Result<ObjectWriter, AllocError> {
        let bytes = Vec::with_capacity(alloc, bytes)?;
        Ok(ObjectWriter { bytes })
    }

    /// Adds the reply to a user's step with this number to the text, as one JSON object, without a space or a line
    /// feed. An error means out of memory.
    pub fn push_reply(
        &mut self,
        alloc: Global,
        text: &mut String,
        uid: Uid,
        number: u64,
        reply: &Reply,
    ) -> Result<(), AllocError>
        ensures text { OnOk result (string_bytes text.new ≡ string_bytes text.old ++ reply_json uid number reply.now) }
        ensures reads_back { OnOk result (document (reply_json uid number reply.now) ≡ Some (reply_value uid number reply.now)) }
    {
        let mut bytes = mem::replace(&mut self.bytes, Vec::new(alloc));
        bytes.clear();
        bytes.reserve(ROOM)?;
        let mut out = Writer::new(bytes);
        push_object(&mut out, uid, number, reply)?;
        let object = text_of(out);
        text.push_str(object.as_str())?;
        self.bytes = object.into_bytes();
        Ok(())
    }
}

/// Returns an object with the name of the fault for which a line is not a step. An error means out of memory.
pub fn refusal_json(alloc: Global, name: &str) -> Result<String, AllocError>
    ensures text { IfOk result (λ text. string_bytes text ≡ json_text (refusal_value name.now)) }
    ensures reads_back { OnOk result (document (json_text (refusal_value name.now)) ≡ Some (refusal_value name.now)) }
{
    let mut out = Writer::new(Vec::with_capacity(alloc, ROOM)?);
    out.begin_object()?;
    push_string(&mut out, "refused", name)?;
    out.end_object()?;
    Ok(text_of(out))
}
