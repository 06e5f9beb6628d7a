//! The slots that contain rows, and the lists that links form.

ghost use Rattle.std.specs.Prelude.{◌≡◌, ℕ, ◌+◌, get_or, length, set, slice_get, ◌<◌, ◌≤◌, ◌==◌, not, Some, None, ◌&&◌, ◌||◌, true, false, IsSome, IfSome, is_none, is_some, if◌then◌else◌, nat_eq};
ghost use Rattle.std.specs.Option.{option_map, option_map_or, option_copied};
ghost use Rattle.slab.specs.Slab.{get, slab_len, ContainsKey};
ghost use Rattle.std.specs.Map.{lookup};
ghost use Rattle.indexmap.specs.IndexMap.{spare};
ghost use Rattle.lwp_table.specs.Kept.{linked, closed_up, ends_at, marked, awaited, has_no_slots, IsWaiter, empty_head, place_of, seen_by, born_node, node_named, extended, without_slot};
ghost use Rattle.lwp_table.specs.Chain.{IsNearest, up};
ghost use Rattle.lwp_table.specs.Lwps.{waits_for};
ghost use Rattle.lwp_table.specs.Marks.{no_marks, traits_of, is_bare, gathered, noted, left};

use crate::hasher::NumberIndex;
use crate::lwp_hints::LwpHints;
use crate::marks::{Marks, Traits};
use crate::user_heads::UserHeads;
use crate::{LwpData, Mode};
use pid_blocks::{Pid, Tid, owner_of_tid};
use slab::Slab;

/// The slots before and after a slot in a list.
#[derive(Clone, Copy, Debug)]
pub struct Links {
    pub prev: Option<usize>,
    pub next: Option<usize>,
}

/// The first and the last slot of a list, and the number of its slots.
#[derive(Clone, Copy, Debug)]
pub struct ListHead {
    pub first: Option<usize>,
    pub last: Option<usize>,
    pub count: usize,
    /// What the rows of a process's list may have. A user's list doesn't use it.
    pub marks: Marks,
    /// The LWP that may wait for the process, by its vfork. A user's list doesn't use it.
    pub waiter: Option<Tid>,
}

impl ListHead {
    /// Returns the ends of an empty list.
    pub fn empty() -> ListHead
        ensures { result ≡ empty_head }
    {
        ListHead {
            first: None,
            last: None,
            count: 0,
            marks: Marks::none(),
            waiter: None,
        }
    }

    /// Tests whether the list is empty.
    fn is_empty(&self) -> bool
        ensures { result ≡ has_no_slots self.now }
    {
        self.count == 0 && self.first.is_none() && self.last.is_none()
    }

    /// Returns the ends after this slot has joined the list behind the last one, with these marks.
    fn extended(&self, slot: usize, marks: Marks) -> ListHead
        requires { self.now.count < 18446744073709551615 }
        ensures { result ≡ extended slot marks self.now }
    {
        ListHead {
            first: self.first.or(Some(slot)),
            last: Some(slot),
            count: self.count + 1,
            marks,
            waiter: self.waiter,
        }
    }

    /// Returns the ends after a slot with these links has left the list, with these marks of the others.
    fn without(&self, gone: Links, marks: Marks) -> ListHead
        requires { 0 < self.now.count }
        ensures { result ≡ without_slot gone marks self.now }
    {
        let first = if gone.prev.is_none() {
            gone.next
        } else {
            self.first
        };
        ListHead {
            first,
            last: if gone.next.is_none() {
                gone.prev
            } else {
                self.last
            },
            count: self.count - 1,
            marks: if first.is_some() {
                marks
            } else {
                Marks::none()
            },
            waiter: self.waiter,
        }
    }
}

/// A row with its birth number, and its links in its process's list and in its user's.
#[derive(Clone, Copy, Debug)]
pub struct RowNode {
    pub row: LwpData,
    pub born: usize,
    pub own: Links,
    pub user: Links,
}

/// One of a slot's links.
#[derive(Clone, Copy, Debug)]
pub enum Link {
    NextOwn,
    PrevOwn,
    NextUser,
    PrevUser,
}

/// Changes a link of the slot `at`, if any.
pub fn set_link(slots: &mut Slab<RowNode>, link: Link, at: Option<usize>, to: Option<usize>)
    requires { IfSome at (λ s. ContainsKey slots.old s) }
    ensures linked { (s : ℕ) → get slots.new s ≡ option_map (linked link at to s) (get slots.old s) }
    ensures len { slab_len slots.new ≡ slab_len slots.old }
    ensures capacity { slots.new.capacity ≡ slots.old.capacity }
{
    if let Some(s) = at {
        let slot = &mut slots[s];
        match link {
            Link::NextOwn => slot.own.next = to,
            Link::PrevOwn => slot.own.prev = to,
            Link::NextUser => slot.user.next = to,
            Link::PrevUser => slot.user.prev = to,
        }
    }
}

/// Links the neighbours of a slot that has left both of its lists to each other.
#[tactic(auto, using(crate::proofs::KeptLemmas::onto))]
pub fn close_up(slots: &mut Slab<RowNode>, gone: &RowNode)
    requires own_prev { IfSome gone.now.own.prev (λ s. ContainsKey slots.old s) }
    requires own_next { IfSome gone.now.own.next (λ s. ContainsKey slots.old s) }
    requires user_prev { IfSome gone.now.user.prev (λ s. ContainsKey slots.old s) }
    requires user_next { IfSome gone.now.user.next (λ s. ContainsKey slots.old s) }
    ensures closed { (s : ℕ) → get slots.new s ≡ option_map (closed_up gone.now s) (get slots.old s) }
    ensures len { slab_len slots.new ≡ slab_len slots.old }
    ensures capacity { slots.new.capacity ≡ slots.old.capacity }
{
    set_link(slots, Link::NextOwn, gone.own.prev, gone.own.next);
    set_link(slots, Link::PrevOwn, gone.own.next, gone.own.prev);
    set_link(slots, Link::NextUser, gone.user.prev, gone.user.next);
    set_link(slots, Link::PrevUser, gone.user.next, gone.user.prev);
}

/// Returns the slot of the row with this number, if any: the hinted one, or else the one to which the index leads.
#[inline(always)]
pub fn node_of<'a>(
    rows: &'a Slab<RowNode>,
    slots: &NumberIndex<usize>,
    hints: &LwpHints,
    tid: Tid,
) -> Option<&'a RowNode>
    requires { (s : ℕ) (slot : RowNode) → get rows.now s ≡ Some slot → lookup (nat_eq slot.row.tid) slots.now.entries ≡ Some s }
    ensures { option_copied result ≡ node_named (get rows.now) slots.now.entries tid }
{
    match rows.get(hints.slot(tid)) {
        Some(node) if node.row.tid == tid => Some(node),
        _ => indexed_node(rows, slots, tid),
    }
}

/// Returns the slot to which the index leads from this number, if its row has the number: it may have had it once.
#[inline(never)]
fn indexed_node<'a>(
    rows: &'a Slab<RowNode>,
    slots: &NumberIndex<usize>,
    tid: Tid,
) -> Option<&'a RowNode>
    ensures { option_copied result ≡ node_named (get rows.now) slots.now.entries tid }
{
    let slot = *slots.get(&tid.get())?;
    let node = rows.get(slot)?;
    if node.row.tid == tid {
        Some(node)
    } else {
        None
    }
}

/// Returns the slot to which this number leads, which is one.
#[inline(always)]
pub fn slot_of(
    rows: &Slab<RowNode>,
    slots: &NumberIndex<usize>,
    hints: &LwpHints,
    tid: Tid,
) -> usize
    requires listed { (s : ℕ) (slot : RowNode) → get rows.now s ≡ Some slot → lookup (nat_eq slot.row.tid) slots.now.entries ≡ Some s }
    requires there { IsSome (lookup (nat_eq tid) slots.now.entries) }
    ensures { lookup (nat_eq tid) slots.now.entries ≡ Some result }
{
    let hint = hints.slot(tid);
    match rows.get(hint) {
        Some(node) if node.row.tid == tid => hint,
        _ => indexed_slot(slots, tid),
    }
}

/// Returns the slot to which the index leads from this number.
#[inline(never)]
fn indexed_slot(slots: &NumberIndex<usize>, tid: Tid) -> usize
    requires { IsSome (lookup (nat_eq tid) slots.now.entries) }
    ensures { lookup (nat_eq tid) slots.now.entries ≡ Some result }
{
    *slots.get(&tid.get()).unwrap()
}

/// Returns the slot with the least birth number from `least` on, if any, by a pass over all slots. All of their birth
/// numbers are below `births`.
pub fn next_born(slots: &Slab<RowNode>, least: usize, births: usize) -> Option<usize>
    requires { (s : ℕ) (slot : RowNode) → get slots.now s ≡ Some slot → slot.born < births }
    ensures { IsNearest up (seen_by born_node (get slots.now)) 0 (λ k. least ≤ k) result }
{
    let mut next = None;
    let mut bound = births;
    for at in 0..slots.capacity() {
        if let Some(slot) = slots.get(at) {
            if least <= slot.born && slot.born < bound {
                next = Some(at);
                bound = slot.born;
            }
        }
    }
    next
}

/// Returns the place of the list of a process among all lists: the hinted one, or else the one to which the index leads.
/// It's behind the last list if the process has none.
#[inline(always)]
fn head_place(heads: &NumberIndex<ListHead>, hints: &LwpHints, pid: Pid) -> usize
    ensures { slice_get heads.now.entries result ≡ option_map (λ ends. (pid, ends)) (lookup (nat_eq pid) heads.now.entries) }
{
    let hint = hints.place(pid);
    match heads.get_index(hint) {
        Some((number, _)) if *number == pid.get() => hint,
        _ => indexed_place(heads, pid),
    }
}

/// Returns the place of the list of a process, to which the index leads, or that behind the last list.
#[inline(never)]
#[tactic(auto, using(crate::proofs::HeadLemmas::placed))]
fn indexed_place(heads: &NumberIndex<ListHead>, pid: Pid) -> usize
    ensures { slice_get heads.now.entries result ≡ option_map (λ ends. (pid, ends)) (lookup (nat_eq pid) heads.now.entries) }
{
    heads.get_index_of(&pid.get()).unwrap_or(heads.len())
}

/// Returns the ends of the list of a process.
#[inline(always)]
pub fn ends_of(heads: &NumberIndex<ListHead>, hints: &LwpHints, pid: Pid) -> ListHead
    ensures { result ≡ ends_at heads.now.entries pid }
{
    match heads.get_index(head_place(heads, hints, pid)) {
        Some((_, ends)) => *ends,
        None => ListHead::empty(),
    }
}

/// Returns the same place, and notes it if the hint was another one.
#[inline(always)]
#[tactic(auto, using(crate::proofs::HeadLemmas::placed))]
fn noted_place(heads: &NumberIndex<ListHead>, hints: &mut LwpHints, pid: Pid) -> usize
    ensures { slice_get heads.now.entries result ≡ option_map (λ ends. (pid, ends)) (lookup (nat_eq pid) heads.now.entries) }
{
    let hint = hints.place(pid);
    let there = match heads.get_index(hint) {
        Some((number, _)) if *number == pid.get() => return hint,
        Some((number, ends)) if ends.first.is_some() => Some(*number),
        _ => None,
    };
    // not by `indexed_place`, so that an insertion that follows hashes no second time
    let place = heads.get_index_of(&pid.get()).unwrap_or(heads.len());
    hints.note_place(pid, place, there);
    place
}

/// Adds the slot of a new row to the list of its process. Returns the slot before it, if any.
pub fn join(
    heads: &mut NumberIndex<ListHead>,
    hints: &mut LwpHints,
    row: &LwpData,
    slot: usize,
) -> Option<usize>
    requires room { 0 < spare heads.old }
    requires count { (ends_at heads.old.entries row.now.pid).count < 18446744073709551615 }
    ensures before { result ≡ (ends_at heads.old.entries row.now.pid).last }
    ensures ends { (q : ℕ) → ends_at heads.new.entries q ≡ (if nat_eq row.now.pid q then extended slot (gathered (ends_at heads.old.entries q).marks row.now) (ends_at heads.old.entries q) else ends_at heads.old.entries q) }
    ensures spare { spare heads.old ≤ spare heads.new + 1 }
{
    let place = noted_place(heads, hints, row.pid);
    if let Some(ends) = heads.get_index_mut(place) {
        let before = ends.last;
        *ends = ends.extended(slot, ends.marks.gathered(row));
        return before;
    }
    let ends = ListHead::empty();
    heads
        .insert(row.pid.get(), ends.extended(slot, ends.marks.gathered(row)))
        .unwrap();
    None
}

/// Takes a slot that had this row and links out of the list of its process.
pub fn leave(heads: &mut NumberIndex<ListHead>, hints: &LwpHints, gone: &RowNode)
    requires { 0 < (ends_at heads.old.entries gone.now.row.pid).count }
    ensures ends { (q : ℕ) → ends_at heads.new.entries q ≡ (if nat_eq gone.now.row.pid q then without_slot gone.now.own (left (ends_at heads.old.entries q).marks gone.now.row.tid) (ends_at heads.old.entries q) else ends_at heads.old.entries q) }
    ensures spare { spare heads.new ≡ spare heads.old }
{
    let place = head_place(heads, hints, gone.row.pid);
    if let Some(ends) = heads.get_index_mut(place) {
        *ends = ends.without(gone.own, ends.marks.left(gone.row.tid));
    }
}

/// Gives back the list of a process without rows, unless an LWP waits for the process. Returns whether it did.
pub fn give_back(
    heads: &mut NumberIndex<ListHead>,
    hints: &mut LwpHints,
    rows: &Slab<RowNode>,
    slots: &NumberIndex<usize>,
    pid: Pid,
) -> bool
    requires { (s : ℕ) (slot : RowNode) → get rows.now s ≡ Some slot → lookup (nat_eq slot.row.tid) slots.now.entries ≡ Some s }
    ensures ends { (q : ℕ) → ends_at heads.new.entries q ≡ (if result && nat_eq pid q then empty_head else ends_at heads.old.entries q) }
    ensures empty { result ≡ true → has_no_slots (ends_at heads.old.entries pid) ≡ true }
    ensures unawaited { result ≡ true → (s : ℕ) (slot : RowNode) → get rows.now s ≡ Some slot → IsWaiter (ends_at heads.old.entries pid) pid slot.row → ⊥ }
    ensures spare { spare heads.old ≤ spare heads.new }
{
    let place = head_place(heads, hints, pid);
    let Some((_, ends)) = heads.get_index(place) else {
        return false;
    };
    if !ends.is_empty() || is_awaited(rows, slots, hints, ends.waiter, pid) {
        return false;
    }
    heads.swap_remove_index(place);
    if let Some((moved, _)) = heads.get_index(place) {
        hints.note_moved(*moved, place);
    }
    true
}

/// Tests whether the LWP that a list names, if any, waits for the process.
fn is_awaited(
    rows: &Slab<RowNode>,
    slots: &NumberIndex<usize>,
    hints: &LwpHints,
    named: Option<Tid>,
    child: Pid,
) -> bool
    requires { (s : ℕ) (slot : RowNode) → get rows.now s ≡ Some slot → lookup (nat_eq slot.row.tid) slots.now.entries ≡ Some s }
    ensures { result ≡ option_map_or (λ tid. option_map_or (λ slot. waits_for child slot.row.mode) (node_named (get rows.now) slots.now.entries tid) false) named false }
{
    match named {
        Some(tid) => waits_for(rows, slots, hints, tid, child),
        None => false,
    }
}

/// Gives the list of a process these marks. Changes nothing if the process has no rows.
pub fn mark(heads: &mut NumberIndex<ListHead>, hints: &LwpHints, pid: Pid, marks: Marks)
    ensures ends { (q : ℕ) → ends_at heads.new.entries q ≡ (if nat_eq pid q then marked marks (ends_at heads.old.entries q) else ends_at heads.old.entries q) }
    ensures spare { spare heads.new ≡ spare heads.old }
{
    let place = head_place(heads, hints, pid);
    if let Some(ends) = heads.get_index_mut(place) {
        if ends.first.is_some() {
            ends.marks = marks;
        }
    }
}

/// Notes in the marks of its process that the row has replaced the one before. Changes nothing if neither has traits.
#[inline(always)]
pub fn note(heads: &mut NumberIndex<ListHead>, hints: &LwpHints, before: &LwpData, row: &LwpData)
    ensures ends { (q : ℕ) → ends_at heads.new.entries q ≡ (if nat_eq row.now.pid q && not (is_bare (traits_of before.now) && is_bare (traits_of row.now)) then marked (noted (ends_at heads.old.entries row.now.pid).marks row.now) (ends_at heads.old.entries q) else ends_at heads.old.entries q) }
    ensures spare { spare heads.new ≡ spare heads.old }
{
    if Traits::of(before).is_bare() && Traits::of(row).is_bare() {
        return;
    }
    note_row(heads, hints, row);
}

/// Notes the row in the marks of its process. Changes nothing if the process has no rows.
#[inline(never)]
fn note_row(heads: &mut NumberIndex<ListHead>, hints: &LwpHints, row: &LwpData)
    ensures ends { (q : ℕ) → ends_at heads.new.entries q ≡ (if nat_eq row.now.pid q then marked (noted (ends_at heads.old.entries row.now.pid).marks row.now) (ends_at heads.old.entries q) else ends_at heads.old.entries q) }
    ensures spare { spare heads.new ≡ spare heads.old }
{
    let place = head_place(heads, hints, row.pid);
    if let Some(ends) = heads.get_index_mut(place) {
        if ends.first.is_some() {
            ends.marks = ends.marks.noted(row);
        }
    }
}

/// Names the LWP in the list of the process for which it waits, if it does. If it can't, the table has an LWP that isn't
/// named.
#[inline(always)]
pub fn name_waiter(
    heads: &mut NumberIndex<ListHead>,
    unnamed: &mut bool,
    rows: &Slab<RowNode>,
    slots: &NumberIndex<usize>,
    hints: &LwpHints,
    row: &LwpData,
)
    requires { (s : ℕ) (slot : RowNode) → get rows.now s ≡ Some slot → lookup (nat_eq slot.row.tid) slots.now.entries ≡ Some s }
    ensures ends { (q : ℕ) → ends_at heads.new.entries q ≡ (if not unnamed.new && waits_for q row.now.mode then awaited row.now.tid (ends_at heads.old.entries q) else ends_at heads.old.entries q) }
    ensures before { unnamed.new ≡ false → unnamed.old ≡ false }
    ensures alone { unnamed.new ≡ false → (s : ℕ) (slot : RowNode) (q : ℕ) → get rows.now s ≡ Some slot → waits_for q row.now.mode ≡ true → IsWaiter (ends_at heads.old.entries q) q slot.row → slot.row.tid ≡ row.now.tid }
    ensures spare { spare heads.new ≡ spare heads.old }
{
    if let Mode::VforkWait(child) = row.mode {
        *unnamed = *unnamed || !await_process(heads, rows, slots, hints, child, row);
    }
}

/// Names the LWP in the list of the process. Returns false, and changes nothing, if the list names another one that
/// waits for the process, or the process has had no rows.
#[inline(never)]
fn await_process(
    heads: &mut NumberIndex<ListHead>,
    rows: &Slab<RowNode>,
    slots: &NumberIndex<usize>,
    hints: &LwpHints,
    child: Pid,
    row: &LwpData,
) -> bool
    requires { (s : ℕ) (slot : RowNode) → get rows.now s ≡ Some slot → lookup (nat_eq slot.row.tid) slots.now.entries ≡ Some s }
    ensures ends { (q : ℕ) → ends_at heads.new.entries q ≡ (if result && nat_eq child q then awaited row.now.tid (ends_at heads.old.entries q) else ends_at heads.old.entries q) }
    ensures alone { result ≡ true → (s : ℕ) (slot : RowNode) → get rows.now s ≡ Some slot → IsWaiter (ends_at heads.old.entries child) child slot.row → slot.row.tid ≡ row.now.tid }
    ensures spare { spare heads.new ≡ spare heads.old }
{
    let place = head_place(heads, hints, child);
    let Some(ends) = heads.get_index_mut(place) else {
        return false;
    };
    if let Some(other) = ends.waiter {
        if other != row.tid && waits_for(rows, slots, hints, other, child) {
            return false;
        }
    }
    ends.waiter = Some(row.tid);
    true
}

/// Tests whether this LWP waits for the process.
fn waits_for(
    rows: &Slab<RowNode>,
    slots: &NumberIndex<usize>,
    hints: &LwpHints,
    tid: Tid,
    child: Pid,
) -> bool
    requires { (s : ℕ) (slot : RowNode) → get rows.now s ≡ Some slot → lookup (nat_eq slot.row.tid) slots.now.entries ≡ Some s }
    ensures { result ≡ option_map_or (λ slot. waits_for child slot.row.mode) (node_named (get rows.now) slots.now.entries tid) false }
{
    match node_of(rows, slots, hints, tid) {
        Some(node) => node.row.mode.waits_for(child),
        None => false,
    }
}

/// Tests whether the row waits for a process for which the one before did not.
pub fn waits_anew(before: &LwpData, row: &LwpData) -> bool
    ensures { result ≡ false → (child : ℕ) → waits_for child row.now.mode ≡ true → waits_for child before.now.mode ≡ true }
{
    match row.mode {
        Mode::VforkWait(child) => !before.mode.waits_for(child),
        _ => false,
    }
}

/// Returns the index, among the users, of the user whose block contains the number.
fn user_place(tid: Tid) -> usize
    ensures place { result ≡ place_of tid }
    ensures below { result < 64 }
{
    owner_of_tid(tid.get()).unwrap().slot()
}

/// Adds the slot of a new row with this number to the list of its user. Returns the slot before it, if any.
pub fn join_user(users: &mut UserHeads, tid: Tid, slot: usize) -> Option<usize>
    requires room { 0 < users.old.spare }
    requires count { place_of tid < 64 → (get_or users.old.items (place_of tid) empty_head).count < 18446744073709551615 }
    ensures before { result ≡ (get_or users.old.items (place_of tid) empty_head).last }
    ensures ends { users.new.items ≡ set users.old.items (place_of tid) (extended slot no_marks (get_or users.old.items (place_of tid) empty_head)) }
    ensures below { place_of tid < 64 }
    ensures spare { users.old.spare ≤ users.new.spare + 1 }
{
    let place = user_place(tid);
    let ends = users.at(place);
    users.set(place, ends.extended(slot, Marks::none()));
    ends.last
}

/// Takes a slot that had this row and links out of the list of its user.
pub fn leave_user(users: &mut UserHeads, gone: &RowNode)
    requires count { place_of gone.now.row.tid < 64 → 0 < (get_or users.old.items (place_of gone.now.row.tid) empty_head).count }
    ensures ends { users.new.items ≡ set users.old.items (place_of gone.now.row.tid) (without_slot gone.now.user no_marks (get_or users.old.items (place_of gone.now.row.tid) empty_head)) }
    ensures below { place_of gone.now.row.tid < 64 }
    ensures spare { users.new.spare ≡ users.old.spare }
{
    let place = user_place(gone.row.tid);
    let ends = users.at(place);
    users.replace(place, ends.without(gone.user, Marks::none()));
}
