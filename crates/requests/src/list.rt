//! Lists of a user's processes.

ghost use Rattle.std.specs.Prelude.{◌≡◌, ◌≢◌, IfOk, map, true};
ghost use Rattle.proc_table.specs.Processes.{of_user};
ghost use Rattle.requests.specs.List.{list};
ghost use Rattle.requests.specs.Memory.{Attempts};

use crate::Reply;
use lwpinfo::NumList;
use pid_blocks::{Errno, Uid};
use proc_table::Tables;
use std::alloc::{AllocError, Global};

/// Returns the numbers of the user's processes in rising order. An error means out of memory.
#[tactic(auto, using(std::proofs::lemmas::Bool::Decides::nat_tests, crate::proofs::ProcessesAbove::above_first))]
fn pids_of(tables: &Tables, alloc: Global, user: Uid) -> Result<NumList, AllocError>
    ensures { IfOk result (λ list. list ≡ map (λ p. p.pid) (of_user user tables.now.rows.processes)) }
{
    let mut pids = Vec::with_capacity(alloc, tables.process_count(user))?;
    let mut after = 0;
    while let Some(pid) = tables.next_pid(user, after) {
        after = pid.get();
        pids.push(after)?;
    }
    Ok(NumList::of(pids))
}

/// Lists the user's processes. Refused with ENOMEM if memory runs out.
pub fn list(tables: &Tables, alloc: Global, user: Uid) -> Reply
    ensures { Attempts true (list user tables.now.rows) tables.now.rows tables.now.rows result }
{
    match pids_of(tables, alloc, user) {
        Ok(pids) => Reply::Pids(pids),
        Err(_) => Reply::Errno(Errno::ENOMEM),
    }
}
