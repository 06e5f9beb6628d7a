//! Information about LWPs, and lists of numbers.

use crate::present;
use event_masks::StopFlags;
use lwp_table::{Due, LwpData};
use lwpinfo::{NumList, info, lwp_count, lwp_info, lwp_list};
use pid_blocks::{Pid, Tid};
use proc_table::Tables;
use signals::SigSet;
use std::alloc::Global;
use std::io;

/// Prints a copy of a list. Lists are equal if they have the same numbers in the same order.
pub fn lists(rt: &impl Print, alloc: Global) -> io::Result<()> {
    let list = NumList::of(vec![in alloc; 1001, 1002, 1004]?);
    let turned = NumList::of(vec![in alloc; 1001, 1004, 1002]?);
    let copy = list.copy(alloc)?;
    let last = copy.get(2).unwrap_or(0);
    let past = copy.get(3).unwrap_or(0);
    let empty = NumList::of(Vec::new(alloc)).is_empty();
    println!(rt;
        "list {:?}: {} numbers, {last}, {past}, same {} {}, empty {empty}",
        copy.as_slice(),
        copy.len(),
        copy == list,
        copy == turned
    )
}

/// Prints the information about an LWP that reports a stop, and about one that doesn't.
pub fn told(rt: &impl Print) -> io::Result<()> {
    let tid = present(Tid::new(100001))?;
    let pid = present(Pid::new(1001))?;
    let row = LwpData {
        flags: StopFlags(10),
        child: 1002,
        code: 2,
        ..LwpData::born(tid, pid, SigSet::empty(), Due::Nothing)
    };
    for reports in [true, false] {
        let told = lwp_info(reports, &row);
        let tid = told.tid.get();
        let (event, flags) = (told.event, told.flags);
        println!(rt; "info {tid} {event} {flags} {} {}", told.child, told.code)?;
    }
    Ok(())
}

/// Prints that an unused process number has no information, no LWPs, and an empty list of them.
pub fn nobody(rt: &impl Print, alloc: Global) -> io::Result<()> {
    let tid = present(Tid::new(100000))?;
    let pid = present(Pid::new(1000))?;
    let tables = Tables::new(alloc)?;
    let is_told = info(&tables, pid, tid).is_some();
    let count = lwp_count(&tables, pid);
    let listed = lwp_list(alloc, &tables, pid, 8)?.len();
    println!(rt; "of nobody: {is_told} {count} {listed}")
}
