//! Rows of processes and LWPs as JSON objects, and the text of all rows that a user sees. A member that is false, 0, empty
//! or none is left out.
ghost use Rattle.std.specs.Prelude.{ℕ, ◌≡◌, map, IfOk};
ghost use Rattle.json.specs.Json.{Json};
ghost use Rattle.json.specs.Tree.{items_tokens, json_tokens};
ghost use Rattle.json.specs.Value.{items_of};
ghost use Rattle.reply_json.specs.Objects.{member_tokens, Puts};
ghost use Rattle.json_trace.specs.Rows.{true_member, signals_member, flags_member, two_numbers, two_names, name_and_number, stopped_by, stop_members, state_members, tracer_member, signal_rest, process_members, process_value, mode_members, call_argument, due_member, last_stop, lwp_members, lwp_value, listed_member, rows_members, rows_json};

use bitflags::Flags;
use event_masks::Call;
use json::Writer;
use lwp_table::{Due, LwpData, Mode};
use pid_blocks::Pid;
use proc_table::{ProcData, State};
use reply_json::{push_flags, push_nonzero, push_number, push_signals, push_string};
use signals::{SigSet, Signal};
use std::alloc::{AllocError, Global};
use visibility::View;

/// A row of a user's view.
pub(crate) trait Row: Copy + PartialEq + Drop {
    /// The row as a JSON object.
    ghost value: { Self → Json };

    /// The number of its process or LWP.
    ghost number_of: { Self → ℕ };

    /// Returns the number of its process or LWP.
    fn number(&self) -> u32
        ensures { result ≡ number_of self.now };

    /// Writes the row as an object.
    fn push(&self, out: &mut Writer) -> Result<(), AllocError>
        ensures { Puts result out.old out.new (json_tokens (value self.now)) };
}

/// Writes that something is so, or nothing.
#[tactic(auto, unfolding(crate::specs::Rows::true_member))]
fn push_if(out: &mut Writer, name: &str, is_so: bool) -> Result<(), AllocError>
    ensures { Puts result out.old out.new (member_tokens (true_member name.now is_so)) }
{
    if !is_so {
        return Ok(());
    }
    out.key(name)?;
    out.boolean(true)
}

/// Writes the names of the signals of a set that isn't empty.
#[tactic(auto, unfolding(crate::specs::Rows::signals_member))]
fn push_some_signals(out: &mut Writer, name: &str, set: SigSet) -> Result<(), AllocError>
    ensures { Puts result out.old out.new (member_tokens (signals_member name.now set)) }
{
    if set.is_empty() {
        return Ok(());
    }
    push_signals(out, name, set)
}

/// Writes the names of flags, if there are any.
#[tactic(auto, unfolding(crate::specs::Rows::flags_member))]
fn push_some_flags<F: Flags + Copy>(out: &mut Writer, name: &str, set: F) -> Result<(), AllocError>
    requires { F.exact }
    ensures { Puts result out.old out.new (member_tokens (flags_member name.now F.table (F.set_of set))) }
{
    if set.is_empty() {
        return Ok(());
    }
    push_flags(out, name, set)
}

/// Writes two members that are numbers.
#[tactic(auto, unfolding(crate::specs::Rows::two_numbers))]
fn push_two(
    out: &mut Writer,
    name: &str,
    number: u32,
    other: &str,
    second: u32,
) -> Result<(), AllocError>
    ensures { Puts result out.old out.new (member_tokens (two_numbers name.now number other.now second)) }
{
    push_number(out, name, u64::from(number))?;
    push_number(out, other, u64::from(second))
}

/// Writes two members that are strings.
#[tactic(auto, unfolding(crate::specs::Rows::two_names))]
fn push_names(
    out: &mut Writer,
    name: &str,
    text: &str,
    other: &str,
    second: &str,
) -> Result<(), AllocError>
    ensures { Puts result out.old out.new (member_tokens (two_names name.now text.now other.now second.now)) }
{
    push_string(out, name, text)?;
    push_string(out, other, second)
}

/// Writes a member that is a string, and one that is a number.
#[tactic(auto, unfolding(crate::specs::Rows::name_and_number))]
fn push_name_and_number(
    out: &mut Writer,
    name: &str,
    text: &str,
    other: &str,
    number: u32,
) -> Result<(), AllocError>
    ensures { Puts result out.old out.new (member_tokens (name_and_number name.now text.now other.now number)) }
{
    push_string(out, name, text)?;
    push_number(out, other, u64::from(number))
}

/// Writes the kind of a process's stop, and its signal.
#[tactic(auto, unfolding(crate::specs::Rows::stopped_by))]
fn push_stopped_by(out: &mut Writer, word: &str, signal: Signal) -> Result<(), AllocError>
    ensures { Puts result out.old out.new (member_tokens (stopped_by word.now signal)) }
{
    push_names(out, "state", word, "stop_signal", signal.name())
}

/// Writes the stop of a process.
#[tactic(auto, using(reply_json::proofs::TokenLemmas::put_rules), unfolding(crate::specs::Rows::stop_members))]
fn push_stop(out: &mut Writer, word: &str, signal: Signal, reported: bool) -> Result<(), AllocError>
    ensures { Puts result out.old out.new (member_tokens (stop_members word.now signal reported)) }
{
    push_stopped_by(out, word, signal)?;
    push_if(out, "reported", reported)
}

#[tactic(auto, using(reply_json::proofs::TokenLemmas::put_rules), unfolding(crate::specs::Rows::state_members))]
fn push_state(out: &mut Writer, state: &State) -> Result<(), AllocError>
    ensures { Puts result out.old out.new (member_tokens (state_members state.now)) }
{
    match state {
        State::Run => push_string(out, "state", "runs"),
        State::Trace { tid, sig, seen } => {
            push_stop(out, "trace_stop", *sig, *seen)?;
            push_number(out, "stop_lwp", u64::from(tid.get()))
        }
        State::Job { sig, seen } => push_stop(out, "job_stop", *sig, *seen),
        State::Zombie { status } => {
            push_name_and_number(out, "state", "zombie", "status", *status)
        }
    }
}

/// Writes the process's tracer, if it has one.
#[tactic(auto, unfolding(crate::specs::Rows::tracer_member))]
fn push_tracer(out: &mut Writer, tracer: Option<Pid>) -> Result<(), AllocError>
    ensures { Puts result out.old out.new (member_tokens (tracer_member tracer)) }
{
    match tracer {
        Some(tracer) => push_number(out, "tracer", u64::from(tracer.get())),
        None => Ok(()),
    }
}

/// Writes the process's events and signals.
#[tactic(auto, using(reply_json::proofs::TokenLemmas::put_rules), unfolding(crate::specs::Rows::signal_rest))]
fn push_rest(out: &mut Writer, row: &ProcData) -> Result<(), AllocError>
    ensures { Puts result out.old out.new (member_tokens (signal_rest row.now)) }
{
    push_some_flags(out, "events", row.mask)?;
    push_some_signals(out, "pending", row.pending)?;
    let (ignored, caught) = row.dispositions.sets();
    push_some_signals(out, "ignore", ignored)?;
    push_some_signals(out, "catch", caught)
}

/// Writes all members of a process's row.
#[tactic(auto, using(reply_json::proofs::TokenLemmas::put_rules), unfolding(crate::specs::Rows::process_members))]
fn push_process(out: &mut Writer, row: &ProcData) -> Result<(), AllocError>
    ensures { Puts result out.old out.new (member_tokens (process_members row.now)) }
{
    push_two(out, "pid", row.pid.get(), "parent", row.parent)?;
    push_tracer(out, row.tracer)?;
    push_state(out, &row.state)?;
    push_if(out, "continued", row.continued)?;
    push_rest(out, row)
}

#[tactic(auto, using(reply_json::proofs::TokenLemmas::put_rules))]
impl Row for ProcData {
    ghost value = { λ p. process_value p };

    ghost number_of = { λ p. p.pid };

    fn number(&self) -> u32 {
        self.pid.get()
    }

    fn push(&self, out: &mut Writer) -> Result<(), AllocError> {
        out.begin_object()?;
        push_process(out, self)?;
        out.end_object()
    }
}

/// Returns the argument of a system call, or 0.
fn argument_of(call: &Call) -> u32
    ensures { result ≡ call_argument call.now }
{
    match call {
        Call::Exit(status) => u32::from(*status),
        Call::Other(number) => *number,
        Call::Fork | Call::Vfork | Call::Exec | Call::ThrNew | Call::ThrExit => 0,
    }
}

#[tactic(auto, using(reply_json::proofs::TokenLemmas::put_rules), unfolding(crate::specs::Rows::mode_members))]
fn push_mode(out: &mut Writer, mode: &Mode) -> Result<(), AllocError>
    ensures { Puts result out.old out.new (member_tokens (mode_members mode.now)) }
{
    match mode {
        Mode::User => push_string(out, "mode", "runs"),
        Mode::InCall(call) => {
            push_names(out, "mode", "in_call", "call", call.kind().name())?;
            push_nonzero(out, "argument", u64::from(argument_of(call)))
        }
        Mode::VforkWait(child) => {
            push_name_and_number(out, "mode", "waits_for_vfork", "vfork_child", child.get())
        }
    }
}

/// Writes the stop that an LWP meets at its next turn, if there is one.
#[tactic(auto, unfolding(crate::specs::Rows::due_member))]
fn push_due(out: &mut Writer, due: Due) -> Result<(), AllocError>
    ensures { Puts result out.old out.new (member_tokens (due_member due)) }
{
    match due {
        Due::Nothing => Ok(()),
        Due::Born => push_string(out, "due", "born"),
        Due::Begun => push_string(out, "due", "begun"),
        Due::VforkDone => push_string(out, "due", "vfork_done"),
    }
}

/// Writes what the last stop of an LWP showed in addition to its signal.
#[tactic(auto, using(reply_json::proofs::TokenLemmas::put_rules), unfolding(crate::specs::Rows::last_stop))]
fn push_last_stop(out: &mut Writer, row: &LwpData) -> Result<(), AllocError>
    ensures { Puts result out.old out.new (member_tokens (last_stop row.now)) }
{
    push_some_flags(out, "flags", row.flags)?;
    push_nonzero(out, "child", u64::from(row.child))?;
    push_nonzero(out, "code", u64::from(row.code))
}

/// Writes all members of an LWP's row.
#[tactic(auto, using(reply_json::proofs::TokenLemmas::put_rules), unfolding(crate::specs::Rows::lwp_members))]
fn push_lwp(out: &mut Writer, row: &LwpData) -> Result<(), AllocError>
    ensures { Puts result out.old out.new (member_tokens (lwp_members row.now)) }
{
    push_two(out, "lwp", row.tid.get(), "pid", row.pid.get())?;
    push_mode(out, &row.mode)?;
    push_if(out, "suspended", row.suspended)?;
    push_if(out, "stepping", row.stepping)?;
    push_some_signals(out, "blocked", row.blocked)?;
    push_some_signals(out, "pending", row.pending)?;
    push_due(out, row.due)?;
    push_last_stop(out, row)
}

#[tactic(auto, using(reply_json::proofs::TokenLemmas::put_rules))]
impl Row for LwpData {
    ghost value = { λ l. lwp_value l };

    ghost number_of = { λ l. l.tid };

    fn number(&self) -> u32 {
        self.tid.get()
    }

    fn push(&self, out: &mut Writer) -> Result<(), AllocError> {
        out.begin_object()?;
        push_lwp(out, self)?;
        out.end_object()
    }
}

/// Writes rows, and the closing bracket after them.
fn push_each<R: Row>(out: &mut Writer, rows: &[R]) -> Result<(), AllocError>
    ensures { Puts result out.old out.new (items_tokens (items_of (map (λ r. R.value r) rows.now))) }
{
    for row in rows {
        row.push(out)?;
    }
    out.end_array()
}

/// Writes a member that is an array of rows, if there are any.
#[tactic(auto, unfolding(crate::specs::Rows::listed_member))]
pub(crate) fn push_rows<R: Row>(out: &mut Writer, name: &str, rows: &[R]) -> Result<(), AllocError>
    ensures { Puts result out.old out.new (member_tokens (listed_member name.now (map (λ r. R.value r) rows.now))) }
{
    if rows.is_empty() {
        return Ok(());
    }
    out.key(name)?;
    out.begin_array()?;
    push_each(out, rows)
}

/// Writes the members that are the lists of a view's rows.
#[tactic(auto, using(reply_json::proofs::TokenLemmas::put_rules), unfolding(crate::specs::Rows::rows_members))]
fn push_view(out: &mut Writer, view: &View) -> Result<(), AllocError>
    ensures { Puts result out.old out.new (member_tokens (rows_members view.now)) }
{
    push_rows(out, "processes", view.processes.as_slice())?;
    push_rows(out, "lwps", view.lwps.as_slice())
}

/// Returns all rows of a view, as the text of an object with the members of `rows`. An error means out of memory.
#[tactic(auto, using(reply_json::proofs::TokenLemmas::put_rules))]
pub fn rows_text(alloc: Global, view: &View) -> Result<Vec<u8>, AllocError>
    ensures { IfOk result (λ text. text.items ≡ rows_json view.now) }
{
    let mut out = Writer::new(Vec::new(alloc));
    out.begin_object()?;
    push_view(&mut out, view)?;
    out.end_object()?;
    Ok(out.into_inner())
}
