//! Tables of rows: each row is added, read, changed and removed.

ghost use Rattle.std.specs.Prelude.{◌≡◌, None};
ghost use Rattle.proc_table.specs.Seen.{owns};

use event_masks::{Call, EventMask, StopFlags};
use lwp_table::{Due, LwpData, LwpTable, Mode};
use pid_blocks::{Pid, Tid, Uid};
use proc_table::{ProcData, State, Tables};
use signals::{Dispositions, SigSet, Signal};
use std::alloc::Global;
use test_kit::{TestError, expect};

pub fn check(rt: &impl Print, alloc: Global) -> Result<(), TestError> {
    an_lwp_table_has_a_row(alloc)?;
    tables_have_a_process(alloc)?;
    println!(rt; "tables: 2 checks passed")?;
    Ok(())
}

/// Returns the row of an LWP without signals.
fn lwp_row(pid: Pid, tid: Tid) -> LwpData
    ensures { (result.pid ≡ pid) × (result.tid ≡ tid) }
{
    LwpData {
        tid,
        pid,
        mode: Mode::User,
        suspended: false,
        stepping: false,
        blocked: SigSet::empty(),
        pending: SigSet::empty(),
        due: Due::Nothing,
        flags: StopFlags(0),
        child: 0,
        code: 0,
    }
}

/// Returns the row of a process that runs, with parent 1.
fn process_row(uid: Uid, pid: Pid) -> ProcData
    ensures own { (result.uid ≡ uid) × (result.pid ≡ pid) }
    ensures alone { (result.parent ≡ 1) × (result.tracer ≡ None) }
{
    ProcData {
        pid,
        uid,
        parent: 1,
        tracer: None,
        state: State::Run,
        continued: false,
        mask: EventMask(0),
        dispositions: Dispositions::standard(),
        pending: SigSet::empty(),
    }
}

/// Returns whether this row was found.
fn is_lwp(found: Option<LwpData>, row: &LwpData) -> bool {
    match found {
        Some(found) => found == *row,
        None => false,
    }
}

/// Returns whether this row was found.
fn is_process(found: Option<ProcData>, row: &ProcData) -> bool {
    match found {
        Some(found) => found == *row,
        None => false,
    }
}

/// Returns a table with the row of an LWP.
fn first_added(alloc: Global, pid: Pid, tid: Tid) -> Result<LwpTable, TestError> {
    let mut table = LwpTable::new(alloc)?;
    table.reserve(1)?;
    table.add(lwp_row(pid, tid));
    Ok(table)
}

/// Gives the LWP this mode and this event that is due, and returns whether it was there.
fn replace(table: &mut LwpTable, tid: Tid, mode: Mode, due: Due) -> bool {
    let Some(row) = table.get(tid) else {
        return false;
    };
    table.set(LwpData {
        tid,
        mode,
        due,
        ..row
    });
    match table.get(tid) {
        Some(row) => row.mode == mode && row.due == due,
        None => false,
    }
}

/// Removes the row, and returns whether it was there.
fn remove(table: &mut LwpTable, tid: Tid) -> bool {
    if table.get(tid).is_none() {
        return false;
    }
    table.remove(tid);
    true
}

/// Checks that this row is the table's only one.
fn check_alone(table: &LwpTable, row: &LwpData) -> Result<(), TestError> {
    let own = table.of_process(row.pid).next();
    expect(is_lwp(own, row), "a process has another row")?;
    expect(is_lwp(table.at(0), row), "a table has other rows")?;
    let is_last = table.at(1).is_none() && table.count(row.pid) == 1;
    expect(is_last, "a table has more rows")
}

fn an_lwp_table_has_a_row(alloc: Global) -> Result<(), TestError> {
    let (Some(pid), Some(tid)) = (Pid::new(1000), Tid::new(100000)) else {
        return Err(TestError::Wrong("a number is lost"));
    };
    let mut table = first_added(alloc, pid, tid)?;
    check_alone(&table, &lwp_row(pid, tid))?;
    for (mode, due) in [
        (Mode::InCall(Call::Exec), Due::Born),
        (Mode::VforkWait(pid), Due::Begun),
        (Mode::User, Due::VforkDone),
        (Mode::User, Due::Nothing),
    ] {
        let is_put = replace(&mut table, tid, mode, due);
        expect(is_put, "a row isn't replaced")?;
    }
    check_alone(&table, &lwp_row(pid, tid))?;
    expect(remove(&mut table, tid), "a row isn't there")?;
    let is_gone = table.at(0).is_none() && table.count(pid) == 0;
    expect(is_gone, "a removed row is there")
}

/// Adds a process of the user, and returns its number.
fn add_process(tables: &mut Tables, uid: Uid) -> Result<Pid, TestError> {
    tables.reserve_process(1)?;
    let Some(pid) = tables.fresh_pid(uid) else {
        return Err(TestError::Wrong("no number is free"));
    };
    let _user = uid.get();
    tables.add_process(process_row(uid, pid));
    Ok(pid)
}

/// Returns whether the user has the process.
fn is_of(tables: &Tables, uid: Uid, pid: Pid) -> bool
    ensures { result ≡ owns uid pid tables.now.rows.processes }
{
    tables.visible_process(uid, pid.get()).is_some()
}

/// Adds an LWP of the user's process, and returns its number.
fn add_lwp(tables: &mut Tables, uid: Uid, pid: Pid) -> Result<Tid, TestError> {
    tables.reserve_lwp(1)?;
    let Some(tid) = tables.fresh_tid(uid) else {
        return Err(TestError::Wrong("no number is free"));
    };
    if !is_of(tables, uid, pid) {
        return Err(TestError::Wrong("a process isn't there"));
    }
    tables.add_lwp(uid, lwp_row(pid, tid));
    Ok(tid)
}

/// Checks that the user has this process and no other.
fn check_process(tables: &Tables, uid: Uid, row: &ProcData) -> Result<(), TestError> {
    let (pid, number) = (row.pid, row.pid.get());
    expect(
        is_process(tables.process(pid), row),
        "a process isn't there",
    )?;
    expect(
        is_process(tables.next_of(uid, 0), row),
        "a process isn't first",
    )?;
    let is_last = tables.next_of(uid, number).is_none() && tables.process_count(uid) == 1;
    expect(is_last, "a user has another process")?;
    let is_alone = tables.next_tracee(pid, 0).is_none() && tables.next_child(pid, 0).is_none();
    expect(is_alone, "a process has a tracee or a child")?;
    expect(
        tables.pid_cursor(uid) == 1001,
        "the next search begins elsewhere",
    )
}

/// Returns the next LWP of the same process by birth.
fn next_sibling(tables: &Tables, tid: Tid) -> Option<LwpData> {
    match tables.lwp(tid) {
        Some(row) => tables.next_lwp(row.pid, tid),
        None => None,
    }
}

/// Returns whether the user sees the process by this number.
fn sees(tables: &Tables, uid: Uid, number: u32, pid: Pid) -> bool {
    match tables.find_seen(uid, number) {
        Some(found) => found == pid,
        None => false,
    }
}

/// Checks that the user has this LWP and no other, and sees it and its process.
fn check_lwp(tables: &Tables, uid: Uid, row: &LwpData) -> Result<(), TestError> {
    let (pid, tid) = (row.pid, row.tid);
    expect(is_lwp(tables.lwp(tid), row), "an LWP isn't there")?;
    expect(is_lwp(tables.first_lwp(pid), row), "an LWP isn't first")?;
    expect(is_lwp(tables.lwp_at(0), row), "another LWP was born")?;
    let is_last = next_sibling(tables, tid).is_none() && tables.lwp_at(1).is_none();
    expect(
        is_last && tables.lwp_count_of(uid) == 1,
        "a user has another LWP",
    )?;
    let is_seen = sees(tables, uid, tid.get(), pid) && sees(tables, uid, pid.get(), pid);
    expect(is_seen, "a user doesn't see its own numbers")?;
    expect(
        tables.find_seen(uid, 1500).is_none(),
        "a user sees another number",
    )?;
    expect(
        tables.tid_cursor(uid) == 100001,
        "the next search begins elsewhere",
    )
}

/// Puts the process, whose parent is 1, into this state, and returns whether it was there.
fn put_state(tables: &mut Tables, pid: Pid, state: State) -> bool {
    let Some(row) = tables.process(pid) else {
        return false;
    };
    tables.set_process(ProcData {
        pid,
        state,
        parent: 1,
        tracer: None,
        ..row
    });
    match tables.process(pid) {
        Some(row) => row.state == state,
        None => false,
    }
}

/// Suspends the LWP, and returns whether it was there.
fn suspend(tables: &mut Tables, tid: Tid) -> bool {
    let Some(row) = tables.lwp(tid) else {
        return false;
    };
    tables.set_lwp(LwpData {
        tid,
        suspended: true,
        ..row
    });
    true
}

/// Removes the process if no row names it, and returns whether it was there.
#[tactic(auto, using(crate::proofs::Found::found_rows))]
fn forget(tables: &mut Tables, pid: Pid) -> bool {
    if tables.next_tracee(pid, 0).is_some()
        || tables.next_child(pid, 0).is_some()
        || tables.first_lwp(pid).is_some()
    {
        return false;
    }
    match tables.process(pid) {
        Some(_) => {
            tables.remove_process(pid);
            true
        }
        None => false,
    }
}

/// Removes the LWP and its process, and returns whether both are gone.
fn take_out(tables: &mut Tables, pid: Pid, tid: Tid) -> bool {
    if tables.lwp(tid).is_none() {
        return false;
    }
    tables.remove_lwp(tid);
    forget(tables, pid) && tables.process(pid).is_none() && tables.lwp(tid).is_none()
}

/// Puts the process into each state, and last into the one that it had.
fn put_each_state(tables: &mut Tables, pid: Pid, tid: Tid) -> Result<(), TestError> {
    let sig = Signal::new(17)?;
    for state in [
        State::Zombie { status: 9 },
        State::Job { sig, seen: true },
        State::Trace {
            tid,
            sig,
            seen: false,
        },
        State::Run,
    ] {
        let is_put = put_state(tables, pid, state);
        expect(is_put, "a process isn't replaced")?;
    }
    Ok(())
}

fn tables_have_a_process(alloc: Global) -> Result<(), TestError> {
    let uid = Uid::new(1001)?;
    let mut tables = Tables::new(alloc)?;
    let pid = add_process(&mut tables, uid)?;
    let tid = add_lwp(&mut tables, uid, pid)?;
    check_process(&tables, uid, &process_row(uid, pid))?;
    check_lwp(&tables, uid, &lwp_row(pid, tid))?;
    put_each_state(&mut tables, pid, tid)?;
    expect(suspend(&mut tables, tid), "an LWP isn't replaced")?;
    check_process(&tables, uid, &process_row(uid, pid))?;
    let suspended = LwpData {
        suspended: true,
        ..lwp_row(pid, tid)
    };
    check_lwp(&tables, uid, &suspended)?;
    expect(take_out(&mut tables, pid, tid), "a row is there")
}
