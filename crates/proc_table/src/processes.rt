//! The rows of processes, each found by its number, with the lists of each process's tracees and children.

ghost use Rattle.std.specs.Prelude.{◌≡◌, ℕ, ◌+◌, ◌<◌, ◌≤◌, ◌==◌, [], Bool, true, false, not, filter, map, count_by, option_map, option_copied, Some, None, IsSome, IsSomeAnd, IfOk, OnOk, OnErr};
ghost use Rattle.std.specs.List.{list_any};
ghost use Rattle.proc_table.specs.Processes.{has_news, process_of, placed};
ghost use Rattle.std.specs.Fn.{FnReturnsAt};
ghost use Rattle.proc_table.specs.ListNodes.{list_owner, parent_named, unlinked, next_named, find_named};
ghost use Rattle.proc_table.specs.Walks.{next_tracee, next_child, find_tracee, find_child, DecidesRows};
ghost use Rattle.proc_table.specs.Kept.{InOwnBlock, put_process};

use crate::links::{ListKind, ListLinks, RowNode, first_slot, next_slot, update_lists};
use crate::lookups::{known_slot, node_named, noted_number, slot_of};
use crate::{ProcData, State};
use lwp_table::{Hints, NumberIndex, copy_entries, copy_values};
use pid_blocks::{Pid, Uid};
use signals::SigSet;
use slab::Slab;
use std::alloc::{AllocError, Global};
use std::hash::BuildHasherDefault;
use std::marker::Model;

/// Returns the process whose list of tracees contains the row.
fn tracer_of(row: &ProcData) -> Option<u32>
    ensures { result ≡ row.now.tracer }
{
    row.tracer.map(|tracer| tracer.get())
}

/// Returns the process whose list of children contains the row. No row has the number 1.
fn parent_of(row: &ProcData) -> Option<u32>
    ensures { result ≡ parent_named row.now.parent }
{
    if row.parent == 1 {
        None
    } else {
        Some(row.parent)
    }
}

/// Returns the slot of a row that is in no list yet.
fn unlinked(row: ProcData) -> RowNode
    ensures { result ≡ unlinked row }
{
    RowNode {
        row,
        tracees: ListLinks::none(),
        children: ListLinks::none(),
    }
}

/// The rows of processes by rising number. Each is in a slot, to which its number leads.
#[derive(Drop)]
pub struct Processes {
    nodes: Slab<RowNode>,
    slots: NumberIndex<usize>,
    hints: Hints,
    /// The number of each user's rows, at most 1000.
    counts: [u16; 64],
}

impl Model for Processes {
    ghost use Rattle.std.specs.Prelude.{◌-◌, min};
    ghost use Rattle.slab.specs.Slab.{slab_len, get};
    ghost use Rattle.indexmap.specs.IndexMap.{spare};
    ghost use Rattle.proc_table.specs.Slots.{ProcRows, all_rows, look};
    ghost use Rattle.proc_table.specs.ListNodes.{rows_of, IsTied};

    ghost Value = { ProcRows };

    ghost view = { λ t. record {
      rows = all_rows (look (rows_of (get t.nodes)) t.slots.entries);
      spare = min (t.nodes.capacity - slab_len t.nodes) (spare t.slots);
    } };

    ghost invariant = { λ t. IsTied (get t.nodes) t.slots.entries t.counts };
}

impl Clone for Processes {
    ghost is_clone = { λ processes copy. copy.rows ≡ processes.rows };

    /// Returns a collection of the same rows. Its room may be another. Fails when out of memory.
    fn clone(&self) -> Result<Processes, AllocError> {
        Ok(Processes {
            nodes: self.nodes.clone()?,
            slots: self.slots.clone()?,
            hints: self.hints.clone()?,
            counts: self.counts,
        })
    }
}

impl Processes {
    /// Returns an empty collection.
    pub fn empty(alloc: Global) -> Processes
        ensures { result.rows ≡ [] }
    {
        let counts = [0; 64];
        Processes {
            nodes: Slab::new(alloc),
            slots: NumberIndex::with_hasher(alloc, BuildHasherDefault::new()),
            hints: Hints::new(alloc),
            counts,
        }
    }

    /// Returns an empty collection. Fails when out of memory.
    pub fn new(alloc: Global) -> Result<Processes, AllocError>
        ensures { IfOk result (λ processes. processes.rows ≡ []) }
    {
        Ok(Processes::empty(alloc))
    }

    /// Makes the rows those of the source, in the collection's own memory as far as it goes. Fails when out of memory,
    /// and then the collection is empty.
    #[inline(always)]
    pub fn copy_from(&mut self, alloc: Global, source: &Processes) -> Result<(), AllocError>
        ensures copied { OnOk result (self.new.rows ≡ source.now.rows) }
        ensures emptied { OnErr result (self.new.rows ≡ []) }
    {
        if copy_values(&mut self.nodes, &source.nodes).is_ok()
            && copy_entries(&mut self.slots, &source.slots).is_ok()
            && self.hints.copy_from(&source.hints).is_ok()
        {
            self.counts = source.counts;
            return Ok(());
        }
        *self = Processes::empty(alloc);
        Err(AllocError)
    }

    /// Makes room for `count` more rows. Fails when out of memory, and then leaves the rows unchanged.
    pub fn reserve(&mut self, count: usize) -> Result<(), AllocError>
        ensures room { OnOk result (count ≤ self.new.spare) }
        ensures rows { self.new.rows ≡ self.old.rows }
        ensures spare { self.old.spare ≤ self.new.spare }
    {
        self.nodes.reserve(count)?;
        self.slots.reserve(count)?;
        let rows = self.nodes.len().saturating_add(count);
        self.hints.reserve(&self.slots, rows)
    }

    /// Returns a reference to the row with this number, if any.
    #[inline(always)]
    #[tactic(auto, using(crate::proofs::Slots::find_laws))]
    pub fn find(&self, number: u32) -> Option<&ProcData>
        ensures { option_copied result ≡ process_of number self.now.rows }
    {
        Some(&node_named(&self.nodes, &self.slots, &self.hints, number)?.row)
    }

    /// Returns the row with this number, if any.
    #[inline(always)]
    pub fn get(&self, number: u32) -> Option<ProcData>
        ensures { result ≡ process_of number self.now.rows }
    {
        self.find(number).copied()
    }

    /// Returns the first row above a number that names this process.
    #[inline(always)]
    fn next_named(&self, kin: ListKind, pid: Pid, after: u32) -> Option<ProcData>
        ensures { result ≡ next_named kin pid after self.now.rows }
    {
        let number = pid.get();
        let head = slot_of(&self.nodes, &self.slots, &self.hints, number)?;
        let slot = next_slot(
            &self.nodes,
            &self.slots,
            &self.hints,
            kin,
            head,
            number,
            after,
        )?;
        Some(self.nodes[slot].row)
    }

    /// Returns the first row above a number that this process traces.
    #[inline(always)]
    pub fn next_tracee(&self, pid: Pid, after: u32) -> Option<ProcData>
        ensures { result ≡ next_tracee pid after self.now.rows }
    {
        self.next_named(ListKind::Tracees, pid, after)
    }

    /// Returns the first row above a number whose parent is this process.
    #[tactic(auto, using(crate::proofs::Tied::children_named))]
    #[inline(always)]
    pub fn next_child(&self, pid: Pid, after: u32) -> Option<ProcData>
        ensures { result ≡ next_child pid after self.now.rows }
    {
        let _number = pid.get();
        self.next_named(ListKind::Children, pid, after)
    }

    /// Returns the first row that names this process and passes the test.
    #[inline(always)]
    fn find_named<F: Fn(&ProcData) -> bool>(
        &self,
        kin: ListKind,
        pid: Pid,
        test: F,
    ) -> Option<ProcData>
        requires callable { F.IsAlwaysCallable test }
        ensures { (t : ProcData → Bool) → DecidesRows (FnReturnsAt F.Fn test) self.now.rows t → result ≡ find_named kin pid t self.now.rows }
    {
        let number = pid.get();
        let head = slot_of(&self.nodes, &self.slots, &self.hints, number)?;
        let slot = first_slot(&self.nodes, kin, head, number, test)?;
        Some(self.nodes[slot].row)
    }

    /// Returns the first row that this process traces and that passes the test.
    pub fn find_tracee<F: Fn(&ProcData) -> bool>(&self, pid: Pid, test: F) -> Option<ProcData>
        requires callable { F.IsAlwaysCallable test }
        ensures { (t : ProcData → Bool) → DecidesRows (FnReturnsAt F.Fn test) self.now.rows t → result ≡ find_tracee pid t self.now.rows }
    {
        self.find_named(ListKind::Tracees, pid, test)
    }

    /// Returns the first row whose parent is this process and that passes the test.
    pub fn find_child<F: Fn(&ProcData) -> bool>(&self, pid: Pid, test: F) -> Option<ProcData>
        requires callable { F.IsAlwaysCallable test }
        ensures { (t : ProcData → Bool) → DecidesRows (FnReturnsAt F.Fn test) self.now.rows t → result ≡ find_child pid t self.now.rows }
    {
        let _number = pid.get();
        self.find_named(ListKind::Children, pid, test)
    }

    /// Returns the number of the user's rows.
    pub fn count(&self, uid: Uid) -> usize
        ensures { result ≡ count_by (λ p. p.uid == uid) self.now.rows }
    {
        self.counts[uid.slot()] as usize
    }

    /// Adds a row. Allocates nothing.
    #[inline(never)]
    pub fn add(&mut self, row: &ProcData)
        requires room { 0 < self.old.spare }
        requires fresh { list_any (λ p. p.pid == row.now.pid) self.old.rows ≡ false }
        requires home { InOwnBlock row.now }
        requires named { (kin : ListKind) (t : ℕ) → list_owner kin row.now ≡ Some t → list_any (λ p. p.pid == t) self.old.rows ≡ true }
        ensures rows { self.new.rows ≡ placed row.now self.old.rows }
        ensures spare { self.old.spare ≤ self.new.spare + 1 }
    {
        let tracer = tracer_of(row);
        let parent = parent_of(row);
        let slot = self.nodes.insert_reserved(unlinked(*row));
        self.slots.insert(row.pid.get(), slot).unwrap();
        let there = noted_number(&self.nodes, &self.hints, row.pid.get());
        self.hints.note_new(row.pid.get(), slot, there);
        update_lists(
            &mut self.nodes,
            &self.slots,
            &self.hints,
            slot,
            tracer,
            parent,
        );
        self.counts[row.uid.slot()] += 1;
    }

    /// Replaces the row with the same number, which is of the same user. The new row moves to the lists of its
    /// tracer and parent. Allocates nothing.
    #[inline(never)]
    pub fn set(&mut self, row: &ProcData)
        requires there { IsSomeAnd (process_of row.now.pid self.old.rows) (λ was. was.uid ≡ row.now.uid) }
        requires named { (kin : ListKind) (t : ℕ) → list_owner kin row.now ≡ Some t → list_any (λ p. p.pid == t) self.old.rows ≡ true }
        ensures rows { self.new.rows ≡ map (put_process row.now) self.old.rows }
        ensures spare { self.new.spare ≡ self.old.spare }
    {
        let number = row.pid.get();
        let slot = known_slot(&self.nodes, &self.slots, &self.hints, number);
        update_lists(
            &mut self.nodes,
            &self.slots,
            &self.hints,
            slot,
            tracer_of(row),
            parent_of(row),
        );
        let node = &mut self.nodes[slot];
        node.row = *row;
    }

    /// Replaces the pending signals of the row with this number, in its place.
    #[inline(always)]
    pub fn set_pending(&mut self, pid: Pid, pending: SigSet)
        requires there { list_any (λ p. p.pid == pid) self.old.rows ≡ true }
        ensures rows { (row : ProcData) → process_of pid self.old.rows ≡ Some row → self.new.rows ≡ map (put_process (record row { pending = pending })) self.old.rows }
        ensures spare { self.new.spare ≡ self.old.spare }
    {
        let at = known_slot(&self.nodes, &self.slots, &self.hints, pid.get());
        let slot = &mut self.nodes[at];
        slot.row.pending = pending;
    }

    /// Replaces the state of the row with this number, in its place. Returns whether a wait may report the row then.
    #[inline(always)]
    pub fn set_state(&mut self, pid: Pid, state: State) -> bool
        requires there { list_any (λ p. p.pid == pid) self.old.rows ≡ true }
        ensures rows { (row : ProcData) → process_of pid self.old.rows ≡ Some row → self.new.rows ≡ map (put_process (record row { state = state })) self.old.rows }
        ensures news { (row : ProcData) → process_of pid self.old.rows ≡ Some row → result ≡ has_news (record row { state = state }) }
        ensures spare { self.new.spare ≡ self.old.spare }
    {
        let at = known_slot(&self.nodes, &self.slots, &self.hints, pid.get());
        let slot = &mut self.nodes[at];
        slot.row.state = state;
        slot.row.has_news()
    }

    /// Removes the row with this number, which no row names.
    pub fn remove(&mut self, pid: Pid)
        requires there { IsSome (process_of pid self.old.rows) }
        requires unnamed { (kin : ListKind) → next_named kin pid 0 self.old.rows ≡ None }
        ensures rows { self.new.rows ≡ filter (λ p. not (p.pid == pid)) self.old.rows }
        ensures spare { self.old.spare ≤ self.new.spare }
    {
        let number = pid.get();
        let slot = known_slot(&self.nodes, &self.slots, &self.hints, number);
        update_lists(&mut self.nodes, &self.slots, &self.hints, slot, None, None);
        let gone = self.nodes.remove(slot);
        self.slots.swap_remove(&number);
        self.counts[gone.row.uid.slot()] -= 1;
    }
}
