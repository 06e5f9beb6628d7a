//! The slot of a row by its number: the one that was noted, and else the one to which the index leads.

ghost use Rattle.std.specs.Prelude.{◌≡◌, ℕ, Some, IsSome, nat_eq};
ghost use Rattle.std.specs.Option.{option_copied, option_and_then};
ghost use Rattle.std.specs.Map.{lookup};
ghost use Rattle.slab.specs.Slab.{get};
ghost use Rattle.proc_table.specs.ListNodes.{slot_named};

use crate::links::RowNode;
use lwp_table::{Hints, NumberIndex};
use slab::Slab;

/// Returns the slot of the row with this number, if any: the hinted one, or else the one to which the index leads.
#[inline(always)]
pub fn slot_of(
    nodes: &Slab<RowNode>,
    slots: &NumberIndex<usize>,
    hints: &Hints,
    number: u32,
) -> Option<usize>
    requires { (s : ℕ) (slot : RowNode) → get nodes.now s ≡ Some slot → lookup (nat_eq slot.row.pid) slots.now.entries ≡ Some s }
    ensures { result ≡ slot_named (get nodes.now) slots.now.entries number }
{
    let hint = hints.slot(number);
    match nodes.get(hint) {
        Some(node) if node.row.pid.get() == number => Some(hint),
        _ => indexed_slot(nodes, slots, number),
    }
}

/// Returns the slot to which the index leads from this number, if its row has the number: it may have had it once.
#[inline(never)]
fn indexed_slot(nodes: &Slab<RowNode>, slots: &NumberIndex<usize>, number: u32) -> Option<usize>
    ensures { result ≡ slot_named (get nodes.now) slots.now.entries number }
{
    let slot = *slots.get(&number)?;
    if nodes.get(slot)?.row.pid.get() == number {
        Some(slot)
    } else {
        None
    }
}

/// Returns the node of the row with this number, if any. It is in the hinted slot, or else in that of the index.
#[inline(always)]
pub fn node_named<'a>(
    nodes: &'a Slab<RowNode>,
    slots: &NumberIndex<usize>,
    hints: &Hints,
    number: u32,
) -> Option<&'a RowNode>
    requires { (s : ℕ) (slot : RowNode) → get nodes.now s ≡ Some slot → lookup (nat_eq slot.row.pid) slots.now.entries ≡ Some s }
    ensures { option_copied result ≡ option_and_then (get nodes.now) (slot_named (get nodes.now) slots.now.entries number) }
{
    match nodes.get(hints.slot(number)) {
        Some(node) if node.row.pid.get() == number => Some(node),
        _ => Some(&nodes[indexed_slot(nodes, slots, number)?]),
    }
}

/// Returns the slot to which this number leads, which is one.
#[inline(always)]
pub fn known_slot(
    nodes: &Slab<RowNode>,
    slots: &NumberIndex<usize>,
    hints: &Hints,
    number: u32,
) -> usize
    requires listed { (s : ℕ) (slot : RowNode) → get nodes.now s ≡ Some slot → lookup (nat_eq slot.row.pid) slots.now.entries ≡ Some s }
    requires there { IsSome (lookup (nat_eq number) slots.now.entries) }
    ensures { lookup (nat_eq number) slots.now.entries ≡ Some result }
{
    let hint = hints.slot(number);
    match nodes.get(hint) {
        Some(node) if node.row.pid.get() == number => hint,
        _ => *slots.get(&number).unwrap(),
    }
}

/// Returns the number of the row in the slot that was noted for a number, if any.
pub fn noted_number(nodes: &Slab<RowNode>, hints: &Hints, number: u32) -> Option<u32> {
    let node = nodes.get(hints.slot(number))?;
    Some(node.row.pid.get())
}
