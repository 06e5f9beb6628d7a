//! A user's view of a host.

ghost use Rattle.std.specs.Prelude.{◌≡◌, IfOk, map, filter};
ghost use Rattle.proc_table.specs.Processes.{of_user};
ghost use Rattle.proc_table.specs.Seen.{owns};
ghost use Rattle.requests.specs.Machine.{installed_by};
ghost use Rattle.requests.specs.View.{view};
ghost use Rattle.visibility.specs.Numbers.{NumbersDiffer};

use lwp_table::LwpData;
use pid_blocks::{Pid, Uid};
use proc_table::{ProcData, Tables};
use requests::Host;
use std::alloc::{AllocError, Global};
use std::marker::Model;
use stop_handlers::{Decider, Policy};
use trace_stop::Settings;

/// What a user sees of a host.
#[derive(Debug, Drop)]
pub struct View {
    /// The user's processes, by rising number.
    pub processes: Vec<ProcData>,
    /// The LWPs of the user's processes, in order of birth.
    pub lwps: Vec<LwpData>,
    /// The number from which the search for the user's next process number begins.
    pub pid_cursor: u32,
    /// The number from which the search for the user's next LWP number begins.
    pub tid_cursor: u32,
    /// The installed policies of the user in order, each with its debugger.
    pub handlers: Vec<(Pid, Policy)>,
    /// The settings: whether a debugger's end kills its tracees.
    pub settings: Settings,
}

impl Model for View {
    ghost use Rattle.std.specs.Prelude.{map};
    ghost use Rattle.requests.specs.View.{View};

    ghost Value = { View };

    ghost view = { λ v. record {
      processes = v.processes.items;
      lwps = v.lwps.items;
      pid_cursor = v.pid_cursor;
      tid_cursor = v.tid_cursor;
      installed = map (λ i. record { debugger = i.0; policy = i.1 }) v.handlers.items;
      settings = v.settings;
    } };
}

/// Returns the user's processes, by rising number. An error means out of memory.
fn processes_of(tables: &Tables, alloc: Global, user: Uid) -> Result<Vec<ProcData>, AllocError>
    ensures { IfOk result (λ rows. rows.items ≡ of_user user tables.now.rows.processes) }
{
    let mut rows = Vec::with_capacity(alloc, tables.process_count(user))?;
    let mut after = 0;
    while let Some(p) = tables.next_of(user, after) {
        after = p.pid.get();
        rows.push(p)?;
    }
    Ok(rows)
}

/// Returns the LWPs of the user's processes, in order of birth. An error means out of memory.
fn lwps_of(tables: &Tables, alloc: Global, user: Uid) -> Result<Vec<LwpData>, AllocError>
    ensures { IfOk result (λ rows. rows.items ≡ filter (λ l. owns user l.pid tables.now.rows.processes) tables.now.rows.lwps) }
{
    let mut rows = Vec::with_capacity(alloc, tables.lwp_count_of(user))?;
    for l in tables.lwps_of_user(user) {
        // a struct of the same fields, since the check of a push of `l` itself doesn't find its type's modules
        rows.push(LwpData { ..l })?;
    }
    Ok(rows)
}

/// Returns the installed policies of the user in order, each with its debugger. An error means out of memory.
fn handlers_from<F: Decider + Send + Drop>(
    host: &Host<F>,
    alloc: Global,
    user: Uid,
) -> Result<Vec<(Pid, Policy)>, AllocError>
    ensures { IfOk result (λ pairs. map (λ i. record { debugger = i.0; policy = i.1 }) pairs.items ≡ installed_by user host.now) }
{
    let mut pairs = Vec::new(alloc);
    while let Some(pair) = host.policy(user, pairs.len()) {
        pairs.push(pair)?;
    }
    Ok(pairs)
}

/// Returns a user's view of a host. An error means out of memory.
pub fn user_view<F: Decider + Send + Drop>(
    alloc: Global,
    host: &Host<F>,
    user: Uid,
) -> Result<View, AllocError>
    ensures view { IfOk result (λ v. v ≡ view user host.now) }
    ensures differ { IfOk result (λ v. NumbersDiffer v) }
{
    let tables = host.tables();
    tables.assert_invariant();
    Ok(View {
        processes: processes_of(tables, alloc, user)?,
        lwps: lwps_of(tables, alloc, user)?,
        pid_cursor: tables.pid_cursor(user),
        tid_cursor: tables.tid_cursor(user),
        handlers: handlers_from(host, alloc, user)?,
        settings: host.settings(),
    })
}
