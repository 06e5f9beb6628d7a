//! All that a user sees, as a list of numbers: two views have the same numbers exactly if they are the same.
ghost use Rattle.std.specs.Prelude.{◌≡◌, ◌∷◌, ◌++◌, OnOk, IfOk, map};
ghost use Rattle.open_sessions.specs.ViewWords.{listed, process_words, lwp_words, rule_words, handler_words, view_words};

use crate::flat::{FlatMode, FlatState, due_number, flag, passed, process_or_0, signal_or_0};
use lwp_table::LwpData;
use pid_blocks::Pid;
use proc_table::ProcData;
use std::alloc::{AllocError, Global};
use stop_handlers::{Policy, Rule};
use visibility::View;

/// Before each row.
const ROW: u32 = 1;

/// After the last row.
const END: u32 = 0;

/// The numbers of a row at most.
const ROW_WORDS: usize = 16;

/// The setting, the cursors, and what ends the three lists.
const FRAME_WORDS: usize = 6;

/// Adds the numbers of a process's row.
fn push_process(row: &ProcData, out: &mut Vec<u32>) -> Result<(), AllocError>
    ensures { OnOk result (out.new.items ≡ out.old.items ++ (1 ∷ process_words row.now)) }
{
    let state = FlatState::of(&row.state);
    let (ignored, caught) = row.dispositions.sets();
    out.extend_from_slice(&[
        ROW,
        row.pid.get(),
        row.uid.get(),
        row.parent,
        flag(row.tracer.is_some()),
        process_or_0(row.tracer),
        state.state,
        state.lwp,
        state.signal,
        state.reported,
        state.status,
        flag(row.continued),
        row.mask.0,
        ignored.bits(),
        caught.bits(),
        row.pending.bits(),
    ])
}

/// Adds the numbers of an LWP's row.
fn push_lwp(row: &LwpData, out: &mut Vec<u32>) -> Result<(), AllocError>
    ensures { OnOk result (out.new.items ≡ out.old.items ++ (1 ∷ lwp_words row.now)) }
{
    let mode = FlatMode::of(&row.mode);
    out.extend_from_slice(&[
        ROW,
        row.tid.get(),
        row.pid.get(),
        mode.mode,
        mode.call,
        mode.argument,
        mode.child,
        flag(row.suspended),
        flag(row.stepping),
        row.blocked.bits(),
        row.pending.bits(),
        due_number(&row.due),
        row.flags.0,
        row.child,
        row.code,
    ])
}

/// Adds the numbers of a rule.
fn push_rule(rule: &Rule, out: &mut Vec<u32>) -> Result<(), AllocError>
    ensures { OnOk result (out.new.items ≡ out.old.items ++ (1 ∷ rule_words rule.now)) }
{
    out.extend_from_slice(&[
        ROW,
        flag(rule.signal.is_some()),
        signal_or_0(rule.signal),
        rule.flags.0,
        rule.decision.kind().number(),
        passed(&rule.decision),
    ])
}

/// Adds the numbers of rules.
fn push_rules(rules: &[Rule], out: &mut Vec<u32>) -> Result<(), AllocError>
    ensures { OnOk result (out.new.items ≡ out.old.items ++ listed rule_words rules.now) }
{
    for row in rules {
        push_rule(row, out)?;
    }
    out.push(END)?;
    Ok(())
}

/// Adds the numbers of a handler.
fn push_handler(debugger: Pid, policy: &Policy, out: &mut Vec<u32>) -> Result<(), AllocError>
    ensures { OnOk result (out.new.items ≡ out.old.items ++ (1 ∷ handler_words (record { debugger = debugger; policy = policy.now }))) }
{
    out.push(ROW)?;
    out.push(debugger.get())?;
    push_rules(policy.rules(), out)
}

/// Adds the numbers of processes' rows.
fn push_processes(rows: &[ProcData], out: &mut Vec<u32>) -> Result<(), AllocError>
    ensures { OnOk result (out.new.items ≡ out.old.items ++ listed process_words rows.now) }
{
    for row in rows {
        push_process(row, out)?;
    }
    out.push(END)?;
    Ok(())
}

/// Adds the numbers of LWPs' rows.
fn push_lwps(rows: &[LwpData], out: &mut Vec<u32>) -> Result<(), AllocError>
    ensures { OnOk result (out.new.items ≡ out.old.items ++ listed lwp_words rows.now) }
{
    for row in rows {
        push_lwp(row, out)?;
    }
    out.push(END)?;
    Ok(())
}

/// Adds the numbers of handlers.
fn push_handlers(handlers: &[(Pid, Policy)], out: &mut Vec<u32>) -> Result<(), AllocError>
    ensures { OnOk result (out.new.items ≡ out.old.items ++ listed handler_words (map (λ i. record { debugger = i.0; policy = i.1 }) handlers.now)) }
{
    for row in handlers {
        push_handler(row.0, &row.1, out)?;
    }
    out.push(END)?;
    Ok(())
}

/// Returns the numbers of a view. An error means out of memory.
pub(crate) fn words_of(alloc: Global, view: &View) -> Result<Vec<u32>, AllocError>
    ensures { IfOk result (λ words. words.items ≡ view_words view.now) }
{
    let rows = view.processes.len().saturating_add(view.lwps.len());
    let room = rows.saturating_mul(ROW_WORDS).saturating_add(FRAME_WORDS);
    let mut out = Vec::with_capacity(alloc, room)?;
    out.push(flag(view.settings.kill_on_debugger_exit))?;
    out.push(view.pid_cursor)?;
    out.push(view.tid_cursor)?;
    push_processes(view.processes.as_slice(), &mut out)?;
    push_lwps(view.lwps.as_slice(), &mut out)?;
    push_handlers(view.handlers.as_slice(), &mut out)?;
    Ok(out)
}
