//! Guesses at the places of a table's rows, and of the lists of processes.

use crate::hasher::NumberIndex;
use crate::hints::Hints;
use crate::links::ListHead;
use pid_blocks::{Pid, Tid};
use std::alloc::{AllocError, Global};

/// Hints at the slots of LWPs, and at the places of processes' lists. They are in one collection, which is copied at
/// once: LWPs have the even numbers of it, and processes the odd ones.
#[derive(Clone, Drop)]
pub struct LwpHints {
    hints: Hints,
}

/// Returns the number by which the hint of an LWP is noted.
#[inline(always)]
fn of_lwp(tid: u32) -> u32 {
    tid.wrapping_mul(2)
}

/// Returns the number by which the hint of a process is noted.
#[inline(always)]
fn of_process(pid: u32) -> u32 {
    pid.wrapping_mul(2) | 1
}

impl LwpHints {
    /// Returns no hints.
    pub fn new(alloc: Global) -> LwpHints {
        LwpHints {
            hints: Hints::new(alloc),
        }
    }

    /// Makes the hints those of the source. Fails when out of memory.
    #[inline(always)]
    pub fn copy_from(&mut self, source: &LwpHints) -> Result<(), AllocError> {
        self.hints.copy_from(&source.hints)
    }

    /// Returns the slot that was noted for the LWP, or another one.
    #[inline(always)]
    pub fn slot(&self, tid: Tid) -> usize {
        self.hints.slot(of_lwp(tid.get()))
    }

    /// Returns the place that was noted for the list of the process, or another one.
    #[inline(always)]
    pub fn place(&self, pid: Pid) -> usize {
        self.hints.slot(of_process(pid.get()))
    }

    /// Notes the slot of a new LWP. `there` is the LWP in the slot that was noted before, whose hint stays.
    #[inline(always)]
    pub fn note_slot(&mut self, tid: Tid, slot: usize, there: Option<Tid>) {
        let there = there.map(|other| of_lwp(other.get()));
        self.hints.note_new(of_lwp(tid.get()), slot, there);
    }

    /// Notes the place of the list of a new process. `there` is the process with LWPs whose list is in the place that was
    /// noted before, and whose hint stays.
    #[inline(always)]
    pub fn note_place(&mut self, pid: Pid, place: usize, there: Option<u32>) {
        let there = there.map(|other| of_process(other));
        self.hints.note_new(of_process(pid.get()), place, there);
    }

    /// Notes the place to which the list of a process has moved.
    #[inline(always)]
    pub fn note_moved(&mut self, pid: u32, place: usize) {
        self.hints.note(of_process(pid), place);
    }

    /// Makes hints for this many LWPs and as many processes. The indices lead to those that there are. Fails when out of
    /// memory.
    #[inline(always)]
    pub fn reserve(
        &mut self,
        slots: &NumberIndex<usize>,
        heads: &NumberIndex<ListHead>,
        rows: usize,
    ) -> Result<(), AllocError> {
        let hints = rows.saturating_mul(2);
        if self.hints.are_few(hints) {
            self.grow(slots, heads, hints)?;
        }
        Ok(())
    }

    /// Makes this many hints, and notes those of the indices anew.
    #[inline(never)]
    fn grow(
        &mut self,
        slots: &NumberIndex<usize>,
        heads: &NumberIndex<ListHead>,
        hints: usize,
    ) -> Result<(), AllocError> {
        self.hints.grow(hints)?;
        for (tid, slot) in slots.iter() {
            self.hints.note(of_lwp(*tid), *slot);
        }
        for (place, pid) in heads.keys().enumerate() {
            self.hints.note(of_process(*pid), place);
        }
        Ok(())
    }
}
