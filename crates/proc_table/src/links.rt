//! The lists of each process's tracees and children. They run through the slots of the rows, in rising
//! order of pid, with links both ways. A walk visits only the rows of one list, and a change allocates nothing.
//! A row leaves its list, or joins one at the end or right after the number before its own, in the same time whatever
//! the length of the list.

ghost use Rattle.std.specs.Prelude.{◌≡◌, ◌≢◌, ℕ, ◌+◌, ◌<◌, Some, None, IsSomeAnd, IfSome, nat_eq};
ghost use Rattle.std.specs.Option.{option_map};
ghost use Rattle.std.specs.Map.{lookup};
ghost use Rattle.slab.specs.Slab.{get, slab_len, ContainsKey};
ghost use Rattle.proc_table.specs.Links.{keys, IsNext, IsLinked, members, at_least, forward, backward, hung};
ghost use Rattle.lwp_table.specs.Chain.{IsNearest, up, down, below};
ghost use Rattle.std.specs.Fn.{FnReturnsAt};
ghost use Rattle.proc_table.specs.ListNodes.{links_in, put_links, no_links, other, pick, node_of, nodes_of, rows_of, AreLinked, IsHead, IsFirst};

use crate::ProcData;
use crate::lookups::{known_slot, slot_of};
use lwp_table::{Hints, NumberIndex};
use slab::Slab;

/// How rows name a process: as their tracer, or as their parent.
#[derive(Clone, Copy, Debug, PartialEq, Eq, Drop)]
pub enum ListKind {
    Tracees,
    Children,
}

/// The links of a row's slot in the lists of one kind.
#[derive(Clone, Copy, Debug, PartialEq, Eq, Drop)]
pub struct ListLinks {
    /// The process whose list contains the row.
    pub list_owner: Option<u32>,
    /// The slot of the first row of the process's own list.
    pub first: Option<usize>,
    /// The slot of the last row of the process's own list.
    pub last: Option<usize>,
    /// The slot of the row before this one in the list that contains it.
    pub prev: Option<usize>,
    /// The slot of the row after this one in the list that contains it.
    pub next: Option<usize>,
}

/// A row with its links.
#[derive(Clone, Copy, Debug, Drop)]
pub struct RowNode {
    pub row: ProcData,
    pub tracees: ListLinks,
    pub children: ListLinks,
}

/// A place in a list: between the rows in these slots, if any.
#[derive(Clone, Copy, Debug, PartialEq, Eq, Drop)]
pub struct Place {
    pub prev: Option<usize>,
    pub next: Option<usize>,
}

impl ListLinks {
    /// Returns the links of a row in no list, whose own list is empty.
    pub fn none() -> ListLinks
        ensures { result ≡ no_links }
    {
        ListLinks {
            list_owner: None,
            first: None,
            last: None,
            prev: None,
            next: None,
        }
    }
}

/// Returns the links of one kind.
#[inline(always)]
pub fn links_of(kin: ListKind, slot: &RowNode) -> ListLinks
    ensures { result ≡ links_in kin slot.now }
{
    match kin {
        ListKind::Tracees => slot.tracees,
        ListKind::Children => slot.children,
    }
}

/// Writes the links of one kind.
#[inline(always)]
#[tactic(auto, using(crate::proofs::ListNodes::put_laws))]
fn set_links(nodes: &mut Slab<RowNode>, kin: ListKind, at: usize, links: ListLinks)
    requires { ContainsKey nodes.old at }
    ensures here { (slot : RowNode) → get nodes.old at ≡ Some slot → get nodes.new at ≡ Some (put_links kin links slot) }
    ensures others { (s : ℕ) → s ≢ at → get nodes.new s ≡ get nodes.old s }
    ensures rows { (s : ℕ) → rows_of (get nodes.new) s ≡ rows_of (get nodes.old) s }
    ensures apart { (s : ℕ) → nodes_of (other kin) (get nodes.new) s ≡ nodes_of (other kin) (get nodes.old) s }
    ensures len { slab_len nodes.new ≡ slab_len nodes.old }
    ensures capacity { nodes.new.capacity ≡ nodes.old.capacity }
{
    let slot = &mut nodes[at];
    match kin {
        ListKind::Tracees => slot.tracees = links,
        ListKind::Children => slot.children = links,
    }
}

/// Returns the place after the row with this number, if the row is in the list of `list_owner`.
#[inline(never)]
fn place_after(
    nodes: &Slab<RowNode>,
    slots: &NumberIndex<usize>,
    hints: &Hints,
    kin: ListKind,
    list_owner: u32,
    number: u32,
) -> Option<Place>
    requires are_linked { AreLinked (get nodes.now) slots.now.entries }
    ensures prev { IfSome result (λ place. IsNearest down (members (nodes_of kin (get nodes.now))) list_owner (below (number + 1)) place.prev) }
    ensures next { IfSome result (λ place. IsNearest up (members (nodes_of kin (get nodes.now))) list_owner (at_least (number + 1)) place.next) }
{
    let at = slot_of(nodes, slots, hints, number)?;
    let links = links_of(kin, &nodes[at]);
    if links.list_owner == Some(list_owner) {
        Some(Place {
            prev: Some(at),
            next: links.next,
        })
    } else {
        None
    }
}

/// Returns the place of `pid` in the list of `list_owner`, whose head is in this slot. Before it walks, it looks at the
/// last row, and then at the row whose number is one less: numbers mostly rise, and most lists have no gaps.
#[inline(always)]
pub fn place_of(
    nodes: &Slab<RowNode>,
    slots: &NumberIndex<usize>,
    hints: &Hints,
    kin: ListKind,
    head: usize,
    list_owner: u32,
    pid: u32,
) -> Place
    requires are_linked { AreLinked (get nodes.now) slots.now.entries }
    requires there { IsHead (get nodes.now) head list_owner }
    requires positive { 0 < pid }
    ensures prev { IsNearest down (members (nodes_of kin (get nodes.now))) list_owner (below pid) result.prev }
    ensures next { IsNearest up (members (nodes_of kin (get nodes.now))) list_owner (at_least pid) result.next }
{
    let ends = links_of(kin, &nodes[head]);
    if let Some(last) = ends.last {
        if nodes[last].row.pid.get() < pid {
            return Place {
                prev: ends.last,
                next: None,
            };
        }
        if let Some(place) = place_after(nodes, slots, hints, kin, list_owner, pid - 1) {
            return place;
        }
    }
    let mut passed = 0;
    let mut prev = None;
    let mut next = ends.first;
    while let Some(slot) = next {
        let number = nodes[slot].row.pid.get();
        if number >= pid {
            return Place { prev, next };
        }
        passed = number;
        prev = next;
        next = links_of(kin, &nodes[slot]).next;
    }
    Place { prev, next }
}

/// Writes the link from the row in the slot `at` to the next one, or the first link of the head.
#[inline(always)]
fn set_next(
    nodes: &mut Slab<RowNode>,
    kin: ListKind,
    head: usize,
    at: Option<usize>,
    to: Option<usize>,
)
    requires head { ContainsKey nodes.old head }
    requires at { IfSome at (λ s. ContainsKey nodes.old s) }
    ensures nodes { (s : ℕ) → nodes_of kin (get nodes.new) s ≡ option_map (forward head at to s) (nodes_of kin (get nodes.old) s) }
    ensures rows { (s : ℕ) → rows_of (get nodes.new) s ≡ rows_of (get nodes.old) s }
    ensures apart { (s : ℕ) → nodes_of (other kin) (get nodes.new) s ≡ nodes_of (other kin) (get nodes.old) s }
    ensures len { slab_len nodes.new ≡ slab_len nodes.old }
    ensures capacity { nodes.new.capacity ≡ nodes.old.capacity }
{
    match at {
        None => {
            let mut links = links_of(kin, &nodes[head]);
            links.first = to;
            set_links(nodes, kin, head, links);
        }
        Some(slot) => {
            let mut links = links_of(kin, &nodes[slot]);
            links.next = to;
            set_links(nodes, kin, slot, links);
        }
    }
}

/// Writes the link from the row in the slot `at` to the one before, or the last link of the head.
#[inline(always)]
fn set_prev(
    nodes: &mut Slab<RowNode>,
    kin: ListKind,
    head: usize,
    at: Option<usize>,
    to: Option<usize>,
)
    requires head { ContainsKey nodes.old head }
    requires at { IfSome at (λ s. ContainsKey nodes.old s) }
    ensures nodes { (s : ℕ) → nodes_of kin (get nodes.new) s ≡ option_map (backward head at to s) (nodes_of kin (get nodes.old) s) }
    ensures rows { (s : ℕ) → rows_of (get nodes.new) s ≡ rows_of (get nodes.old) s }
    ensures apart { (s : ℕ) → nodes_of (other kin) (get nodes.new) s ≡ nodes_of (other kin) (get nodes.old) s }
    ensures len { slab_len nodes.new ≡ slab_len nodes.old }
    ensures capacity { nodes.new.capacity ≡ nodes.old.capacity }
{
    match at {
        None => {
            let mut links = links_of(kin, &nodes[head]);
            links.last = to;
            set_links(nodes, kin, head, links);
        }
        Some(slot) => {
            let mut links = links_of(kin, &nodes[slot]);
            links.prev = to;
            set_links(nodes, kin, slot, links);
        }
    }
}

/// Writes whose list contains a row, and the row's links there.
#[inline(always)]
fn hang(
    nodes: &mut Slab<RowNode>,
    kin: ListKind,
    slot: usize,
    list_owner: Option<u32>,
    prev: Option<usize>,
    next: Option<usize>,
)
    requires { ContainsKey nodes.old slot }
    ensures nodes { (s : ℕ) → nodes_of kin (get nodes.new) s ≡ option_map (hung slot list_owner prev next s) (nodes_of kin (get nodes.old) s) }
    ensures rows { (s : ℕ) → rows_of (get nodes.new) s ≡ rows_of (get nodes.old) s }
    ensures apart { (s : ℕ) → nodes_of (other kin) (get nodes.new) s ≡ nodes_of (other kin) (get nodes.old) s }
    ensures len { slab_len nodes.new ≡ slab_len nodes.old }
    ensures capacity { nodes.new.capacity ≡ nodes.old.capacity }
{
    let mut links = links_of(kin, &nodes[slot]);
    links.list_owner = list_owner;
    links.prev = prev;
    links.next = next;
    set_links(nodes, kin, slot, links);
}

/// Adds the row in `slot`, which is in no list, to the list of `list_owner`.
#[inline(always)]
fn link(
    nodes: &mut Slab<RowNode>,
    slots: &NumberIndex<usize>,
    hints: &Hints,
    kin: ListKind,
    head: usize,
    list_owner: u32,
    slot: usize,
)
    requires are_linked { AreLinked (get nodes.old) slots.now.entries }
    requires there { IsHead (get nodes.old) head list_owner }
    requires free { IsSomeAnd (get nodes.old slot) (λ was. (node_of kin was).list_owner ≡ None) }
    ensures linked { IsLinked (nodes_of kin (get nodes.new)) }
    ensures joins { keys (nodes_of kin (get nodes.new)) slot ≡ option_map (λ was. (was.row.pid, Some list_owner)) (get nodes.old slot) }
    ensures others { (s : ℕ) → s ≢ slot → keys (nodes_of kin (get nodes.new)) s ≡ keys (nodes_of kin (get nodes.old)) s }
    ensures rows { (s : ℕ) → rows_of (get nodes.new) s ≡ rows_of (get nodes.old) s }
    ensures apart { (s : ℕ) → nodes_of (other kin) (get nodes.new) s ≡ nodes_of (other kin) (get nodes.old) s }
    ensures len { slab_len nodes.new ≡ slab_len nodes.old }
    ensures capacity { nodes.new.capacity ≡ nodes.old.capacity }
{
    let pid = nodes[slot].row.pid.get();
    let place = place_of(nodes, slots, hints, kin, head, list_owner, pid);
    set_next(nodes, kin, head, place.prev, Some(slot));
    set_prev(nodes, kin, head, place.next, Some(slot));
    hang(nodes, kin, slot, Some(list_owner), place.prev, place.next);
}

/// Removes the row in `slot` from the list of `list_owner`.
#[inline(always)]
fn unlink(nodes: &mut Slab<RowNode>, kin: ListKind, head: usize, list_owner: u32, slot: usize)
    requires linked { IsLinked (nodes_of kin (get nodes.old)) }
    requires there { IsHead (get nodes.old) head list_owner }
    requires its { IsSomeAnd (get nodes.old slot) (λ was. (node_of kin was).list_owner ≡ Some list_owner) }
    ensures linked { IsLinked (nodes_of kin (get nodes.new)) }
    ensures leaves { keys (nodes_of kin (get nodes.new)) slot ≡ option_map (λ was. (was.row.pid, None)) (get nodes.old slot) }
    ensures others { (s : ℕ) → s ≢ slot → keys (nodes_of kin (get nodes.new)) s ≡ keys (nodes_of kin (get nodes.old)) s }
    ensures rows { (s : ℕ) → rows_of (get nodes.new) s ≡ rows_of (get nodes.old) s }
    ensures apart { (s : ℕ) → nodes_of (other kin) (get nodes.new) s ≡ nodes_of (other kin) (get nodes.old) s }
    ensures len { slab_len nodes.new ≡ slab_len nodes.old }
    ensures capacity { nodes.new.capacity ≡ nodes.old.capacity }
{
    let links = links_of(kin, &nodes[slot]);
    set_next(nodes, kin, head, links.prev, links.next);
    set_prev(nodes, kin, head, links.next, links.prev);
    hang(nodes, kin, slot, None, None, None);
}

/// Removes the row in `slot` from the list that contains it, if any.
#[inline(always)]
fn leave(
    nodes: &mut Slab<RowNode>,
    slots: &NumberIndex<usize>,
    hints: &Hints,
    kin: ListKind,
    slot: usize,
)
    requires are_linked { AreLinked (get nodes.old) slots.now.entries }
    requires there { ContainsKey nodes.old slot }
    ensures are_linked { AreLinked (get nodes.new) slots.now.entries }
    ensures here { keys (nodes_of kin (get nodes.new)) slot ≡ option_map (λ was. (was.row.pid, None)) (get nodes.old slot) }
    ensures others { (s : ℕ) → s ≢ slot → keys (nodes_of kin (get nodes.new)) s ≡ keys (nodes_of kin (get nodes.old)) s }
    ensures rows { (s : ℕ) → rows_of (get nodes.new) s ≡ rows_of (get nodes.old) s }
    ensures apart { (s : ℕ) → nodes_of (other kin) (get nodes.new) s ≡ nodes_of (other kin) (get nodes.old) s }
    ensures len { slab_len nodes.new ≡ slab_len nodes.old }
    ensures capacity { nodes.new.capacity ≡ nodes.old.capacity }
{
    if let Some(list_owner) = links_of(kin, &nodes[slot]).list_owner {
        let head = known_slot(nodes, slots, hints, list_owner);
        unlink(nodes, kin, head, list_owner, slot);
    }
}

/// Adds the row in `slot`, which is in no list, to the list of `list_owner`, if any.
#[inline(always)]
fn join(
    nodes: &mut Slab<RowNode>,
    slots: &NumberIndex<usize>,
    hints: &Hints,
    kin: ListKind,
    slot: usize,
    list_owner: Option<u32>,
)
    requires are_linked { AreLinked (get nodes.old) slots.now.entries }
    requires free { IsSomeAnd (get nodes.old slot) (λ was. (node_of kin was).list_owner ≡ None) }
    requires list_owner { (t : ℕ) → list_owner ≡ Some t → (h : ℕ) × (lookup (nat_eq t) slots.now.entries ≡ Some h) × IsHead (get nodes.old) h t }
    ensures are_linked { AreLinked (get nodes.new) slots.now.entries }
    ensures here { keys (nodes_of kin (get nodes.new)) slot ≡ option_map (λ was. (was.row.pid, list_owner)) (get nodes.old slot) }
    ensures others { (s : ℕ) → s ≢ slot → keys (nodes_of kin (get nodes.new)) s ≡ keys (nodes_of kin (get nodes.old)) s }
    ensures rows { (s : ℕ) → rows_of (get nodes.new) s ≡ rows_of (get nodes.old) s }
    ensures apart { (s : ℕ) → nodes_of (other kin) (get nodes.new) s ≡ nodes_of (other kin) (get nodes.old) s }
    ensures len { slab_len nodes.new ≡ slab_len nodes.old }
    ensures capacity { nodes.new.capacity ≡ nodes.old.capacity }
{
    if let Some(list_owner) = list_owner {
        let head = known_slot(nodes, slots, hints, list_owner);
        link(nodes, slots, hints, kin, head, list_owner, slot);
    }
}

/// Moves the row in `slot` from the list that contains it, if any, to the list of `list_owner`, or to none.
#[inline(always)]
fn move_to_list(
    nodes: &mut Slab<RowNode>,
    slots: &NumberIndex<usize>,
    hints: &Hints,
    kin: ListKind,
    slot: usize,
    list_owner: Option<u32>,
)
    requires are_linked { AreLinked (get nodes.old) slots.now.entries }
    requires there { ContainsKey nodes.old slot }
    requires list_owner { (t : ℕ) → list_owner ≡ Some t → (h : ℕ) × (lookup (nat_eq t) slots.now.entries ≡ Some h) × IsHead (get nodes.old) h t }
    ensures are_linked { AreLinked (get nodes.new) slots.now.entries }
    ensures here { keys (nodes_of kin (get nodes.new)) slot ≡ option_map (λ was. (was.row.pid, list_owner)) (get nodes.old slot) }
    ensures others { (s : ℕ) → s ≢ slot → keys (nodes_of kin (get nodes.new)) s ≡ keys (nodes_of kin (get nodes.old)) s }
    ensures rows { (s : ℕ) → rows_of (get nodes.new) s ≡ rows_of (get nodes.old) s }
    ensures apart { (s : ℕ) → nodes_of (other kin) (get nodes.new) s ≡ nodes_of (other kin) (get nodes.old) s }
    ensures len { slab_len nodes.new ≡ slab_len nodes.old }
    ensures capacity { nodes.new.capacity ≡ nodes.old.capacity }
{
    leave(nodes, slots, hints, kin, slot);
    join(nodes, slots, hints, kin, slot, list_owner);
}

/// Moves the row in `slot` to the list of `list_owner`, or to none, if it isn't there yet. Allocates nothing.
#[inline(always)]
pub fn update_list(
    nodes: &mut Slab<RowNode>,
    slots: &NumberIndex<usize>,
    hints: &Hints,
    kin: ListKind,
    slot: usize,
    list_owner: Option<u32>,
)
    requires are_linked { AreLinked (get nodes.old) slots.now.entries }
    requires there { ContainsKey nodes.old slot }
    requires list_owner { (t : ℕ) → list_owner ≡ Some t → (h : ℕ) × (lookup (nat_eq t) slots.now.entries ≡ Some h) × IsHead (get nodes.old) h t }
    ensures are_linked { AreLinked (get nodes.new) slots.now.entries }
    ensures here { keys (nodes_of kin (get nodes.new)) slot ≡ option_map (λ was. (was.row.pid, list_owner)) (get nodes.old slot) }
    ensures others { (s : ℕ) → s ≢ slot → keys (nodes_of kin (get nodes.new)) s ≡ keys (nodes_of kin (get nodes.old)) s }
    ensures rows { (s : ℕ) → rows_of (get nodes.new) s ≡ rows_of (get nodes.old) s }
    ensures apart { (s : ℕ) → nodes_of (other kin) (get nodes.new) s ≡ nodes_of (other kin) (get nodes.old) s }
    ensures len { slab_len nodes.new ≡ slab_len nodes.old }
    ensures capacity { nodes.new.capacity ≡ nodes.old.capacity }
{
    if links_of(kin, &nodes[slot]).list_owner != list_owner {
        move_to_list(nodes, slots, hints, kin, slot, list_owner);
    }
}

/// Moves the row in `slot` to the lists of its tracer and of its parent, or to none.
pub fn update_lists(
    nodes: &mut Slab<RowNode>,
    slots: &NumberIndex<usize>,
    hints: &Hints,
    slot: usize,
    tracer: Option<u32>,
    parent: Option<u32>,
)
    requires are_linked { AreLinked (get nodes.old) slots.now.entries }
    requires there { ContainsKey nodes.old slot }
    requires list_owners { (kin : ListKind) (t : ℕ) → pick kin tracer parent ≡ Some t → (h : ℕ) × (lookup (nat_eq t) slots.now.entries ≡ Some h) × IsHead (get nodes.old) h t }
    ensures are_linked { AreLinked (get nodes.new) slots.now.entries }
    ensures here { (kin : ListKind) → keys (nodes_of kin (get nodes.new)) slot ≡ option_map (λ was. (was.row.pid, pick kin tracer parent)) (get nodes.old slot) }
    ensures others { (kin : ListKind) (s : ℕ) → s ≢ slot → keys (nodes_of kin (get nodes.new)) s ≡ keys (nodes_of kin (get nodes.old)) s }
    ensures rows { (s : ℕ) → rows_of (get nodes.new) s ≡ rows_of (get nodes.old) s }
    ensures len { slab_len nodes.new ≡ slab_len nodes.old }
    ensures capacity { nodes.new.capacity ≡ nodes.old.capacity }
{
    update_list(nodes, slots, hints, ListKind::Tracees, slot, tracer);
    update_list(nodes, slots, hints, ListKind::Children, slot, parent);
}

/// Returns the slot of the first row above `after` in the list of `list_owner`.
#[inline(always)]
pub fn next_slot(
    nodes: &Slab<RowNode>,
    slots: &NumberIndex<usize>,
    hints: &Hints,
    kin: ListKind,
    head: usize,
    list_owner: u32,
    after: u32,
) -> Option<usize>
    requires are_linked { AreLinked (get nodes.now) slots.now.entries }
    requires there { IsHead (get nodes.now) head list_owner }
    requires below { (s : ℕ) (slot : RowNode) → get nodes.now s ≡ Some slot → slot.row.pid < 65000 }
    ensures { IsNext (keys (nodes_of kin (get nodes.now))) list_owner after result }
{
    if after == 0 {
        return links_of(kin, &nodes[head]).first;
    }
    let number = after.saturating_add(1);
    place_of(nodes, slots, hints, kin, head, list_owner, number).next
}

/// Returns the slot of the first row in the list of `list_owner` that passes the test, if any. No row is copied.
#[inline(always)]
pub fn first_slot<F: Fn(&ProcData) -> bool>(
    nodes: &Slab<RowNode>,
    kin: ListKind,
    head: usize,
    list_owner: u32,
    test: F,
) -> Option<usize>
    requires linked { IsLinked (nodes_of kin (get nodes.now)) }
    requires there { IsHead (get nodes.now) head list_owner }
    requires callable { F.IsAlwaysCallable test }
    ensures { IsFirst (get nodes.now) kin list_owner (FnReturnsAt F.Fn test) result }
{
    let mut passed = 0;
    let mut link = links_of(kin, &nodes[head]).first;
    while let Some(at) = link {
        let slot = &nodes[at];
        if test(&slot.row) {
            return Some(at);
        }
        passed = slot.row.pid.get();
        link = links_of(kin, slot).next;
    }
    None
}
