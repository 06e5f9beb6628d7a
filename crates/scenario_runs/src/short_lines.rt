//! The lines of the replies that are most frequent, put together on the stack.

ghost use Rattle.std.specs.Prelude.{◌≡◌, ◌≤◌, ◌+◌, ◌∷◌, [], ◌++◌, if◌then◌else◌, length, decimal, codes, IfSome};
ghost use Rattle.std.specs.List.{join_with_byte};
ghost use Rattle.arrayvec.specs.ArrayString.{array_string_len};
ghost use Rattle.pid_blocks.specs.Blocks.{errno_name, errno_number};
ghost use Rattle.event_masks.specs.Names.{flag_text, stop_table};
ghost use Rattle.step_types.specs.Events.{event_name};
ghost use Rattle.step_types.specs.declared.Reply.TheVariants.{Handled, Info};
ghost use Rattle.step_types.specs.Words.{decision_words, index_text, reply_words};

use arrayvec::ArrayString;
use event_masks::StopFlags;
use itoa::Buffer;
use pid_blocks::{Errno, Pid, Tid};
use requests::Reply;
use signals::{Pass, Signal};
use step_types::{Event, LwpInfo, Status};
use stop_handlers::{Decision, StopView};

/// Room for a short line, in bytes.
pub const ROOM: usize = 384;

/// Adds a word and a number, each after a space, and ends the line.
fn push_number(line: &mut ArrayString<ROOM>, word: &str, number: u32)
    requires { array_string_len line.old + length word.now ≤ 200 }
    ensures { line.new.bytes ≡ line.old.bytes ++ codes " " ++ word.now ++ codes " " ++ decimal number ++ codes "\n" }
{
    let mut digits = Buffer::new();
    line.push_str(" ");
    line.push_str(word);
    line.push_str(" ");
    line.push_str(digits.format(number));
    line.push_str("\n");
}

/// Adds a word and two numbers, each after a space, and ends the line.
fn push_pair(line: &mut ArrayString<ROOM>, word: &str, first: u32, second: u32)
    requires { array_string_len line.old + length word.now ≤ 100 }
    ensures { line.new.bytes ≡ line.old.bytes ++ codes " " ++ word.now ++ codes " " ++ decimal first ++ codes " " ++ decimal second ++ codes "\n" }
{
    let mut digits = Buffer::new();
    line.push_str(" ");
    line.push_str(word);
    line.push_str(" ");
    line.push_str(digits.format(first));
    line.push_str(" ");
    line.push_str(digits.format(second));
    line.push_str("\n");
}

/// Adds the words of an error, each after a space, and ends the line.
fn push_errno(line: &mut ArrayString<ROOM>, errno: Errno)
    requires { array_string_len line.old ≤ 90 }
    ensures { line.new.bytes ≡ line.old.bytes ++ codes " error " ++ errno_name errno ++ codes " " ++ decimal (errno_number errno) ++ codes "\n" }
{
    let mut digits = Buffer::new();
    line.push_str(" error ");
    line.push_str(errno.name());
    line.push_str(" ");
    line.push_str(digits.format(errno.number()));
    line.push_str("\n");
}

/// Returns the text of the flags that a stop can have, and nothing for other sets of flags.
fn stop_text(flags: StopFlags) -> Option<&'static str>
    ensures { IfSome result (λ text. (text.now ≡ flag_text stop_table flags.0) × (length text.now ≤ 50)) }
{
    match flags.0 {
        0 => Some("none"),
        1 => Some("PL_FLAG_SCE"),
        2 => Some("PL_FLAG_SCX"),
        6 => Some("PL_FLAG_SCX+PL_FLAG_EXEC"),
        10 => Some("PL_FLAG_SCX+PL_FLAG_FORKED"),
        18 => Some("PL_FLAG_SCX+PL_FLAG_CHILD"),
        34 => Some("PL_FLAG_SCX+PL_FLAG_BORN"),
        64 => Some("PL_FLAG_EXITED"),
        138 => Some("PL_FLAG_SCX+PL_FLAG_FORKED+PL_FLAG_VFORKED"),
        256 => Some("PL_FLAG_VFORK_DONE"),
        _ => None,
    }
}

/// Adds the words of a stop, each after a space, and ends the line.
fn push_stop(line: &mut ArrayString<ROOM>, tid: Tid, sig: Signal, flags: &str)
    requires { (array_string_len line.old ≤ 90) × (length flags.now ≤ 50) }
    ensures { line.new.bytes ≡ line.old.bytes ++ codes " stopped " ++ decimal tid ++ codes " " ++ decimal sig ++ codes " flags=" ++ flags.now ++ codes "\n" }
{
    let mut digits = Buffer::new();
    line.push_str(" stopped ");
    line.push_str(digits.format(tid.get()));
    line.push_str(" ");
    line.push_str(digits.format(sig.number()));
    line.push_str(" flags=");
    line.push_str(flags);
    line.push_str("\n");
}

/// Adds a stop as a handler saw it.
fn push_view(line: &mut ArrayString<ROOM>, view: &StopView, flags: &str)
    requires { (array_string_len line.old ≤ 140) × (length flags.now ≤ 50) }
    ensures bytes { line.new.bytes ≡ line.old.bytes ++ decimal view.now.tid ++ codes " signal=" ++ decimal view.now.sig ++ codes " flags=" ++ flags.now
        ++ codes " child=" ++ decimal view.now.child ++ codes " code=" ++ decimal view.now.code }
    ensures room { array_string_len line.new ≤ array_string_len line.old + 120 }
{
    let mut digits = Buffer::new();
    line.push_str(digits.format(view.tid.get()));
    line.push_str(" signal=");
    line.push_str(digits.format(view.sig.number()));
    line.push_str(" flags=");
    line.push_str(flags);
    line.push_str(" child=");
    line.push_str(digits.format(view.child));
    line.push_str(" code=");
    line.push_str(digits.format(view.code));
}

/// Adds the index of a handler, or `none`.
fn push_index(line: &mut ArrayString<ROOM>, index: Option<u32>)
    requires { array_string_len line.old ≤ 270 }
    ensures bytes { line.new.bytes ≡ line.old.bytes ++ index_text index }
    ensures room { array_string_len line.new ≤ array_string_len line.old + 10 }
{
    let mut digits = Buffer::new();
    match index {
        Some(index) => line.push_str(digits.format(index)),
        None => line.push_str("none"),
    }
}

/// Adds a word and the signal that is passed on.
fn push_passing(line: &mut ArrayString<ROOM>, word: &str, pass: Pass)
    requires { (array_string_len line.old ≤ 300) × (length word.now ≤ 20) }
    ensures { line.new.bytes ≡ line.old.bytes ++ word.now ++ decimal pass ++ codes "\n" }
{
    let mut digits = Buffer::new();
    line.push_str(word);
    line.push_str(digits.format(pass.number()));
    line.push_str("\n");
}

/// Adds a decision, after a space, and ends the line.
fn push_decision(line: &mut ArrayString<ROOM>, decision: Decision)
    requires { array_string_len line.old ≤ 300 }
    ensures { line.new.bytes ≡ line.old.bytes ++ (32 ∷ join_with_byte 32 (decision_words decision)) ++ codes "\n" }
{
    match decision {
        Decision::Decline => line.push_str(" decline\n"),
        Decision::Leave => line.push_str(" leave\n"),
        Decision::Continue(pass) => push_passing(line, " continue ", pass),
        Decision::Detach(pass) => push_passing(line, " detach ", pass),
        Decision::Kill => line.push_str(" kill\n"),
    }
}

/// Adds what a wait reported, before the stop that handlers saw.
fn push_reported(line: &mut ArrayString<ROOM>, pid: Pid, word: u32)
    requires { array_string_len line.old ≤ 90 }
    ensures bytes { line.new.bytes ≡ line.old.bytes ++ codes " handled " ++ decimal pid ++ codes " " ++ decimal word ++ codes " at " }
    ensures room { array_string_len line.new ≤ array_string_len line.old + 40 }
{
    let mut digits = Buffer::new();
    line.push_str(" handled ");
    line.push_str(digits.format(pid.get()));
    line.push_str(" ");
    line.push_str(digits.format(word));
    line.push_str(" at ");
}

/// Adds what a wait reported, the stop, and what the handlers decided, and ends the line.
fn push_handled(
    line: &mut ArrayString<ROOM>,
    pid: Pid,
    word: u32,
    view: &StopView,
    flags: &str,
    index: Option<u32>,
    decision: Decision,
)
    requires { (array_string_len line.old ≤ 90) × (length flags.now ≤ 50) }
    ensures { line.new.bytes ≡ line.old.bytes ++ codes " handled " ++ decimal pid ++ codes " " ++ decimal word ++ codes " at "
        ++ decimal view.now.tid ++ codes " signal=" ++ decimal view.now.sig ++ codes " flags=" ++ flags.now
        ++ codes " child=" ++ decimal view.now.child ++ codes " code=" ++ decimal view.now.code
        ++ codes " by " ++ index_text index ++ (32 ∷ join_with_byte 32 (decision_words decision)) ++ codes "\n" }
{
    push_reported(line, pid, word);
    push_view(line, view, flags);
    line.push_str(" by ");
    push_index(line, index);
    push_decision(line, decision);
}

/// Adds the words of a stop that was handled, whose flags have this text, and ends the line.
fn push_decided(
    line: &mut ArrayString<ROOM>,
    pid: Pid,
    status: &Status,
    view: &StopView,
    flags: &str,
    index: Option<u32>,
    decision: Decision,
)
    requires room { (array_string_len line.old ≤ 90) × (length flags.now ≤ 50) }
    requires flags { flags.now ≡ flag_text stop_table view.now.flags.0 }
    ensures { line.new.bytes ≡ line.old.bytes ++ (32 ∷ join_with_byte 32 (reply_words (Handled pid status.now view.now index decision))) ++ (10 ∷ []) }
{
    push_handled(line, pid, status.word(), view, flags, index, decision);
}

/// Adds the words of what PT_LWPINFO reported of an LWP without blocked or pending signals, and ends the line.
fn push_info(line: &mut ArrayString<ROOM>, info: &LwpInfo, event: &str, flags: &str)
    requires { (array_string_len line.old ≤ 90) × (length event.now ≤ 20) × (length flags.now ≤ 50) }
    ensures { line.new.bytes ≡ line.old.bytes ++ codes " info " ++ decimal info.now.tid ++ codes " " ++ event.now ++ codes " flags=" ++ flags.now
        ++ codes " mask=none pending=none child=" ++ decimal info.now.child ++ codes " code=" ++ decimal info.now.code ++ codes "\n" }
{
    let mut digits = Buffer::new();
    line.push_str(" info ");
    line.push_str(digits.format(info.tid.get()));
    line.push_str(" ");
    line.push_str(event);
    line.push_str(" flags=");
    line.push_str(flags);
    line.push_str(" mask=none pending=none child=");
    line.push_str(digits.format(info.child));
    line.push_str(" code=");
    line.push_str(digits.format(info.code));
    line.push_str("\n");
}

/// Adds the words of what PT_LWPINFO reported of such an LWP, whose event and flags have these texts, and ends the line.
fn push_told(line: &mut ArrayString<ROOM>, info: &LwpInfo, event: &str, flags: &str)
    requires room { (array_string_len line.old ≤ 90) × (length event.now ≤ 20) × (length flags.now ≤ 50) }
    requires event { event.now ≡ event_name info.now.event }
    requires flags { flags.now ≡ flag_text stop_table info.now.flags.0 }
    requires quiet { (info.now.sigmask ≡ 0) × (info.now.siglist ≡ 0) }
    ensures { line.new.bytes ≡ line.old.bytes ++ (32 ∷ join_with_byte 32 (reply_words (Info info.now))) ++ (10 ∷ []) }
{
    push_info(line, info, event, flags);
}

/// Returns the event's name.
fn event_text(event: Event) -> &'static str
    ensures { (result.now ≡ event_name event) × (length result.now ≤ 20) }
{
    match event {
        Event::Nothing => "NONE",
        Event::Signal => "SIGNAL",
    }
}

/// Adds the words of what PT_LWPINFO reported, and ends the line. Returns false, and adds nothing, if a signal is blocked
/// or pending, or if no stop has these flags.
fn push_quiet(line: &mut ArrayString<ROOM>, info: &LwpInfo) -> bool
    requires { array_string_len line.old ≤ 90 }
    ensures { line.new.bytes ≡ (if result then line.old.bytes ++ (32 ∷ join_with_byte 32 (reply_words (Info info.now))) ++ (10 ∷ []) else line.old.bytes) }
{
    if !info.sigmask.is_empty() || !info.siglist.is_empty() {
        return false;
    }
    match stop_text(info.flags) {
        Some(text) => push_told(line, info, event_text(info.event), text),
        None => return false,
    }
    true
}

/// Adds the words of a reply to a line, and ends it. Returns false, and adds nothing, if the reply isn't one of the
/// most frequent.
pub fn push_short(line: &mut ArrayString<ROOM>, reply: &Reply) -> bool
    requires { array_string_len line.old ≤ 90 }
    ensures { line.new.bytes ≡ (if result then line.old.bytes ++ (32 ∷ join_with_byte 32 (reply_words reply.now)) ++ (10 ∷ []) else line.old.bytes) }
{
    match reply {
        Reply::Done => line.push_str(" ok\n"),
        Reply::Nothing => line.push_str(" nothing\n"),
        Reply::Held => line.push_str(" held\n"),
        Reply::New { pid, tid } => push_pair(line, "new", pid.get(), tid.get()),
        Reply::Status { pid, status } => push_pair(line, "status", pid.get(), status.word()),
        Reply::Number(number) => push_number(line, "number", *number),
        Reply::Caught(sig) => push_number(line, "caught", sig.number()),
        Reply::Ended(status) => push_number(line, "ended", *status),
        Reply::Errno(errno) => push_errno(line, *errno),
        Reply::Stopped { tid, sig, flags } => match stop_text(*flags) {
            Some(text) => push_stop(line, *tid, *sig, text),
            None => return false,
        },
        Reply::Handled {
            pid,
            status,
            view,
            index,
            decision,
        } => match stop_text(view.flags) {
            Some(text) => push_decided(line, *pid, status, view, text, *index, *decision),
            None => return false,
        },
        Reply::Info(info) => return push_quiet(line, info),
        _ => return false,
    }
    true
}
