//! The table of all LWPs of a host.
//!
//! Links and birth numbers keep the order of birth, in a list of each process and in a list of each user. A removal
//! changes at most four links, all of the same user's rows. A walk over a process or a user visits only the rows of
//! that process or user. Birth numbers only rise, so a new row comes last in both lists. No walk reads them: they
//! specify the order of the links.
//!
//! What is gone leaves nothing: a row's number leaves `slots` with it, and a process's list leaves `heads` with the
//! last row, unless an LWP waits for the process.

ghost use Rattle.std.specs.Prelude.{◌≡◌, ◌==◌, ◌+◌, ◌<◌, ◌≤◌, ◌++◌, [], ◌∷◌, false, IsSome, IsSomeAnd, OnOk, OnErr, IfOk, count_by, filter, map, option_map, slice_get, if◌then◌else◌};
ghost use Rattle.pid_blocks.specs.Blocks.{tid_owner};
ghost use Rattle.std.specs.Fn.{FnReturnsAt};
ghost use Rattle.lwp_table.specs.Lwps.{lwp_of, lwps_of, first_lwp, next_lwp, has_lwp, with_lwp, without_lwp, own_lwp, KeepsNumbers, ComputesRows, SparesOthers, Differ};
ghost use Rattle.lwp_table.specs.Marks.{Spares};

use crate::LwpData;
use crate::copies::{copy_entries, copy_values};
use crate::hasher::NumberIndex;
use crate::links::{
    Link, Links, ListHead, RowNode, close_up, ends_of, give_back, join, join_user, leave,
    leave_user, mark, name_waiter, next_born, node_of, note, set_link, slot_of, waits_anew,
};
use crate::lwp_hints::LwpHints;
use crate::marks::{Marks, Traits};
use crate::user_heads::UserHeads;
use crate::walks::{OfProcess, OfUser};
use pid_blocks::{Pid, Tid, Uid};
use slab::Slab;
use std::alloc::{AllocError, Global};
use std::hash::BuildHasherDefault;
use std::marker::Model;

/// The rows of LWPs in order of birth, each found by its number.
///
/// No operation but `at` passes over other users' rows. But all users share the hints and the indexes, so rows that others
/// have or had can change the time of a look-up by some instructions.
#[derive(Drop)]
pub struct LwpTable {
    rows: Slab<RowNode>,
    slots: NumberIndex<usize>,
    hints: LwpHints,
    heads: NumberIndex<ListHead>,
    births: usize,
    users: UserHeads,
    /// An LWP may wait for a process whose list doesn't name it. Hosts make no such LWP.
    unnamed: bool,
}

impl Model for LwpTable {
    ghost use Rattle.std.specs.Prelude.{◌-◌, min};
    ghost use Rattle.slab.specs.Slab.{slab_len, get};
    ghost use Rattle.indexmap.specs.IndexMap.{spare};
    ghost use Rattle.lwp_table.specs.Lwps.{Lwps};
    ghost use Rattle.lwp_table.specs.Kept.{rows_of, IsKept};

    ghost Value = { Lwps };

    ghost view = { λ t. record {
      rows = rows_of (get t.rows) t.slots.entries t.births;
      spare = min (min (t.rows.capacity - slab_len t.rows) (spare t.slots)) (min (min (spare t.heads) t.users.spare) (18446744073709551615 - t.births));
    } };

    ghost invariant = { λ t. IsKept (get t.rows) t.slots.entries t.heads.entries t.births t.users.items t.unnamed };
}

impl Clone for LwpTable {
    ghost is_clone = { λ table copy. copy.rows ≡ table.rows };

    /// Returns a table of the same rows, in the time of the most rows that there were. Its room may be another.
    /// Fails when out of memory.
    fn clone(&self) -> Result<LwpTable, AllocError> {
        Ok(LwpTable {
            rows: self.rows.clone()?,
            slots: self.slots.clone()?,
            hints: self.hints.clone()?,
            heads: self.heads.clone()?,
            births: self.births,
            users: self.users.clone()?,
            unnamed: self.unnamed,
        })
    }
}

#[tactic(auto, using(crate::proofs::KeptLemmas::differ_seen))]
impl LwpTable {
    /// Returns an empty table.
    pub fn empty(alloc: Global) -> LwpTable
        ensures { result.rows ≡ [] }
    {
        LwpTable {
            rows: Slab::new(alloc),
            slots: NumberIndex::with_hasher(alloc, BuildHasherDefault::new()),
            hints: LwpHints::new(alloc),
            heads: NumberIndex::with_hasher(alloc, BuildHasherDefault::new()),
            births: 0,
            users: UserHeads::new(alloc),
            unnamed: false,
        }
    }

    /// Returns an empty table. Fails when out of memory.
    pub fn new(alloc: Global) -> Result<LwpTable, AllocError>
        ensures { IfOk result (λ table. table.rows ≡ []) }
    {
        Ok(LwpTable::empty(alloc))
    }

    /// Makes the rows those of the source, in the table's own memory as far as it goes. Fails when out of memory, and
    /// then the table is empty.
    #[inline(always)]
    pub fn copy_from(&mut self, alloc: Global, source: &LwpTable) -> Result<(), AllocError>
        ensures copied { OnOk result (self.new.rows ≡ source.now.rows) }
        ensures emptied { OnErr result (self.new.rows ≡ []) }
    {
        if copy_values(&mut self.rows, &source.rows).is_ok()
            && copy_entries(&mut self.slots, &source.slots).is_ok()
            && self.hints.copy_from(&source.hints).is_ok()
            && copy_entries(&mut self.heads, &source.heads).is_ok()
            && self.users.copy_from(&source.users).is_ok()
        {
            self.births = source.births;
            self.unnamed = source.unnamed;
            return Ok(());
        }
        *self = LwpTable::empty(alloc);
        Err(AllocError)
    }

    /// Makes room for `count` more rows. Fails when out of memory, and then leaves the rows unchanged.
    pub fn reserve(&mut self, count: usize) -> Result<(), AllocError>
        ensures room { OnOk result (count ≤ self.new.spare) }
        ensures rows { self.new.rows ≡ self.old.rows }
        ensures spare { self.old.spare ≤ self.new.spare }
    {
        if count > usize::MAX - self.births {
            return Err(AllocError);
        }
        self.rows.reserve(count)?;
        self.slots.reserve(count)?;
        self.heads.reserve(count)?;
        self.users.reserve(count)?;
        let rows = self.rows.len().saturating_add(count);
        self.hints.reserve(&self.slots, &self.heads, rows)
    }

    /// Adds a row at the end. Allocates nothing.
    pub fn add(&mut self, row: LwpData)
        requires room { 0 < self.old.spare }
        requires fresh { has_lwp row.tid self.old.rows ≡ false }
        ensures rows { self.new.rows ≡ self.old.rows ++ (row ∷ []) }
        ensures spare { self.old.spare ≤ self.new.spare + 1 }
    {
        let slot = self.rows.vacant_key();
        let own = Links {
            prev: join(&mut self.heads, &mut self.hints, &row, slot),
            next: None,
        };
        let user = Links {
            prev: join_user(&mut self.users, row.tid, slot),
            next: None,
        };
        self.rows.insert_reserved(RowNode {
            row,
            born: self.births,
            own,
            user,
        });
        set_link(&mut self.rows, Link::NextOwn, own.prev, Some(slot));
        set_link(&mut self.rows, Link::NextUser, user.prev, Some(slot));
        self.slots.insert(row.tid.get(), slot).unwrap();
        let hinted = self.rows.get(self.hints.slot(row.tid));
        let there = hinted.map(|node| node.row.tid);
        self.hints.note_slot(row.tid, slot, there);
        self.births += 1;
        name_waiter(
            &mut self.heads,
            &mut self.unnamed,
            &self.rows,
            &self.slots,
            &self.hints,
            &row,
        );
    }

    /// Tests whether a row has this number.
    #[tactic(auto, using(crate::proofs::WordLemmas::has_lwp_found))]
    pub fn has(&self, tid: Tid) -> bool
        ensures has { result ≡ has_lwp tid self.now.rows }
        ensures differ { Differ self.now.rows }
    {
        self.get(tid).is_some()
    }

    /// Returns the row with this number, if any.
    #[tactic(auto, using(crate::proofs::KeptLemmas::differ_seen, crate::proofs::IndexLemmas::number_laws))]
    pub fn get(&self, tid: Tid) -> Option<LwpData>
        ensures row { result ≡ lwp_of tid self.now.rows }
        ensures differ { Differ self.now.rows }
    {
        Some(node_of(&self.rows, &self.slots, &self.hints, tid)?.row)
    }

    /// Returns the process of the row with this number, if any.
    #[tactic(auto, using(crate::proofs::KeptLemmas::differ_seen, crate::proofs::IndexLemmas::number_laws))]
    pub fn process(&self, tid: Tid) -> Option<Pid>
        ensures process { result ≡ option_map (λ l. l.pid) (lwp_of tid self.now.rows) }
        ensures differ { Differ self.now.rows }
    {
        Some(node_of(&self.rows, &self.slots, &self.hints, tid)?.row.pid)
    }

    /// Replaces the row with the same number, which is of the same process.
    pub fn set(&mut self, row: LwpData)
        requires { IsSomeAnd (lwp_of row.tid self.old.rows) (λ was. was.pid ≡ row.pid) }
        ensures rows { self.new.rows ≡ with_lwp row self.old.rows }
        ensures spare { self.new.spare ≡ self.old.spare }
    {
        let slot = slot_of(&self.rows, &self.slots, &self.hints, row.tid);
        // before the row is replaced, so that neither row is copied for it
        note(&mut self.heads, &self.hints, &self.rows[slot].row, &row);
        self.rows[slot].row = row;
        name_waiter(
            &mut self.heads,
            &mut self.unnamed,
            &self.rows,
            &self.slots,
            &self.hints,
            &row,
        );
    }

    /// Changes each row of this process in its place. A row keeps its number and its process.
    #[inline(never)]
    fn edit_of<F: Fn(&LwpData) -> LwpData>(&mut self, pid: Pid, edit: F)
        requires callable { F.IsAlwaysCallable edit }
        requires keeps { KeepsNumbers (FnReturnsAt F.Fn edit) self.old.rows }
        // the rows by the definition, for any change that the closure computes on the rows
        ensures rows { (change : LwpData → LwpData) → ComputesRows (FnReturnsAt F.Fn edit) self.old.rows change → self.new.rows ≡ map (own_lwp pid change) self.old.rows }
        ensures spare { self.new.spare ≡ self.old.spare }
    {
        let mut marks = Marks::none();
        let mut unnamed = self.unnamed;
        let mut link = ends_of(&self.heads, &self.hints, pid).first;
        while let Some(at) = link {
            let slot = &mut self.rows[at];
            let row = edit(&slot.row);
            unnamed |= waits_anew(&slot.row, &row);
            slot.row = row;
            marks = marks.gathered(&row);
            link = slot.own.next;
        }
        self.unnamed = unnamed;
        mark(&mut self.heads, &self.hints, pid, marks);
    }

    /// Changes the row with this number in its place, if it's a row of this process.
    #[inline(never)]
    fn edit_one<F: Fn(&LwpData) -> LwpData>(&mut self, pid: Pid, tid: Tid, edit: &F)
        requires callable { F.IsAlwaysCallable edit.now }
        requires keeps { KeepsNumbers (FnReturnsAt F.Fn edit.now) self.old.rows }
        ensures rows { (change : LwpData → LwpData) → ComputesRows (FnReturnsAt F.Fn edit.now) self.old.rows change → self.new.rows ≡ map (own_lwp pid (λ l. if l.tid == tid then change l else l)) self.old.rows }
        ensures spare { self.new.spare ≡ self.old.spare }
    {
        if let Some(row) = self.get(tid) {
            if row.pid == pid {
                self.set(edit(&row));
            }
        }
    }

    /// Changes each row of this process in its place, by a change that leaves rows without the touched traits as they
    /// are. A row keeps its number and its process. Looks at no row if none may have such a trait, and only at one if
    /// no other may.
    #[inline(always)]
    pub fn edit_touched_of<F: Fn(&LwpData) -> LwpData>(
        &mut self,
        pid: Pid,
        touched: &Traits,
        edit: F,
    )
        requires callable { F.IsAlwaysCallable edit }
        requires keeps { KeepsNumbers (FnReturnsAt F.Fn edit) self.old.rows }
        // the rows by the definition, for any such change that the closure computes on the rows
        ensures rows { (change : LwpData → LwpData) → ComputesRows (FnReturnsAt F.Fn edit) self.old.rows change → Spares touched.now change → self.new.rows ≡ map (own_lwp pid change) self.old.rows }
        ensures spare { self.new.spare ≡ self.old.spare }
    {
        let marks = ends_of(&self.heads, &self.hints, pid).marks;
        if marks.all.meets(touched) {
            self.edit_of(pid, edit);
        } else if marks.own.meets(touched) {
            if let Some(tid) = marks.sole {
                self.edit_one(pid, tid, &edit);
            }
        }
    }

    /// Changes each row of this process in its place, by a change that leaves LWPs that don't wait for `child` as they
    /// are. A row keeps its number and its process. Looks only at the LWP that may wait for it.
    #[inline(always)]
    pub fn edit_waiting_of<F: Fn(&LwpData) -> LwpData>(&mut self, pid: Pid, child: Pid, edit: F)
        requires callable { F.IsAlwaysCallable edit }
        requires keeps { KeepsNumbers (FnReturnsAt F.Fn edit) self.old.rows }
        // the rows by the definition, for any such change that the closure computes on the rows
        ensures rows { (change : LwpData → LwpData) → ComputesRows (FnReturnsAt F.Fn edit) self.old.rows change → SparesOthers child change → self.new.rows ≡ map (own_lwp pid change) self.old.rows }
        ensures spare { self.new.spare ≡ self.old.spare }
    {
        if self.unnamed {
            self.edit_of(pid, edit);
        } else if let Some(tid) = ends_of(&self.heads, &self.hints, child).waiter {
            self.edit_one(pid, tid, &edit);
        }
    }

    /// Removes the row with this number. The others keep their order.
    pub fn remove(&mut self, tid: Tid)
        requires { IsSome (lwp_of tid self.old.rows) }
        ensures rows { self.new.rows ≡ without_lwp tid self.old.rows }
        ensures spare { self.old.spare ≤ self.new.spare }
    {
        let slot = slot_of(&self.rows, &self.slots, &self.hints, tid);
        let gone = self.rows.remove(slot);
        self.slots.swap_remove(&tid.get());
        leave(&mut self.heads, &self.hints, &gone);
        leave_user(&mut self.users, &gone);
        close_up(&mut self.rows, &gone);
        give_back(
            &mut self.heads,
            &mut self.hints,
            &self.rows,
            &self.slots,
            gone.row.pid,
        );
    }

    /// Returns the row at this place in order of birth, by a pass over all slots for each row before it. Meant for
    /// tests: walks over a user or a process need no place.
    pub fn at(&self, place: usize) -> Option<LwpData>
        ensures row { result ≡ slice_get self.now.rows place }
        ensures differ { Differ self.now.rows }
    {
        let mut slot = next_born(&self.rows, 0, self.births)?;
        for _ in 0..place {
            slot = next_born(&self.rows, self.rows[slot].born + 1, self.births)?;
        }
        Some(self.rows[slot].row)
    }

    /// Returns the first row of this process, if any.
    pub fn first_of(&self, pid: Pid) -> Option<LwpData>
        ensures row { result ≡ first_lwp pid self.now.rows }
        ensures differ { Differ self.now.rows }
    {
        let slot = ends_of(&self.heads, &self.hints, pid).first?;
        Some(self.rows[slot].row)
    }

    /// Returns the next row of this process by birth after this one, if any.
    pub fn next_of(&self, pid: Pid, after: Tid) -> Option<LwpData>
        requires { IsSomeAnd (lwp_of after self.now.rows) (λ row. row.pid ≡ pid) }
        ensures row { result ≡ next_lwp pid after self.now.rows }
        ensures differ { Differ self.now.rows }
    {
        let at = slot_of(&self.rows, &self.slots, &self.hints, after);
        let slot = self.rows[at].own.next?;
        Some(self.rows[slot].row)
    }

    /// Returns an iterator over the rows of this process, in order of birth.
    #[tactic(auto, using(crate::proofs::KeptLemmas::differ_seen, crate::proofs::WalkLemmas::first_laws))]
    pub fn of_process(&self, pid: Pid) -> OfProcess<'_>
        ensures rows { result ≡ lwps_of pid self.now.rows }
        ensures differ { Differ self.now.rows }
    {
        OfProcess {
            rows: &self.rows,
            slots: &self.slots,
            births: self.births,
            pid,
            link: ends_of(&self.heads, &self.hints, pid).first,
        }
    }

    /// Returns an iterator over the rows whose numbers are this user's, in order of birth.
    #[tactic(auto, using(crate::proofs::KeptLemmas::differ_seen, crate::proofs::WalkLemmas::first_laws))]
    pub fn of_user(&self, uid: Uid) -> OfUser<'_>
        ensures rows { result ≡ filter (λ l. tid_owner l.tid == uid) self.now.rows }
        ensures differ { Differ self.now.rows }
    {
        let place = uid.slot();
        OfUser {
            rows: &self.rows,
            slots: &self.slots,
            births: self.births,
            place,
            link: self.users.at(place).first,
        }
    }

    /// Returns the number of rows of this process.
    pub fn count(&self, pid: Pid) -> usize
        ensures count { result ≡ count_by (λ l. l.pid == pid) self.now.rows }
        ensures differ { Differ self.now.rows }
    {
        ends_of(&self.heads, &self.hints, pid).count
    }

    /// Returns the number of rows whose numbers are this user's.
    pub fn user_count(&self, uid: Uid) -> usize
        ensures count { result ≡ count_by (λ l. tid_owner l.tid == uid) self.now.rows }
        ensures differ { Differ self.now.rows }
    {
        self.users.at(uid.slot()).count
    }
}
