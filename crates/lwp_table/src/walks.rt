//! Walks over the rows of a table.

use crate::LwpData;
use crate::hasher::NumberIndex;
use crate::links::RowNode;
use pid_blocks::Pid;
use slab::Slab;
use std::marker::Model;

/// An iterator over the rows of one process in order of birth. Contracts see the list of rows that are left.
#[derive(Drop)]
pub struct OfProcess<'a> {
    pub(crate) rows: &'a Slab<RowNode>,
    pub(crate) slots: &'a NumberIndex<usize>,
    pub(crate) births: usize,
    pub(crate) pid: Pid,
    pub(crate) link: Option<usize>,
}

impl<'a> Model for OfProcess<'a> {
    ghost use Rattle.std.specs.Prelude.{List, filter};
    ghost use Rattle.slab.specs.Slab.{get};
    ghost use Rattle.lwp_table.specs.declared.LwpData.{LwpData};
    ghost use Rattle.lwp_table.specs.Kept.{own_node, is_of, rows_from, IsWalk};

    ghost Value = { List LwpData };

    ghost view = { λ it. filter (is_of it.pid) (rows_from (get it.rows.now) it.slots.now.entries it.births it.link) };

    ghost invariant = { λ it. IsWalk (get it.rows.now) it.slots.now.entries it.births own_node it.pid it.link };
}

impl<'a> Iterator for OfProcess<'a> {
    type Item = LwpData;

    ghost use Rattle.std.specs.Iterator.{YieldsFirst, item_count};

    ghost next_gives = { YieldsFirst (λ rest. rest) };

    ghost remaining = { item_count (λ rest. rest) };

    fn next(&mut self) -> Option<LwpData> {
        let slot = self.rows[self.link?];
        self.link = slot.own.next;
        Some(slot.row)
    }
}

/// An iterator over the rows of one user in order of birth. Contracts see the list of rows that are left.
#[derive(Drop)]
pub struct OfUser<'a> {
    pub(crate) rows: &'a Slab<RowNode>,
    pub(crate) slots: &'a NumberIndex<usize>,
    pub(crate) births: usize,
    pub(crate) place: usize,
    pub(crate) link: Option<usize>,
}

impl<'a> Model for OfUser<'a> {
    ghost use Rattle.std.specs.Prelude.{List, filter};
    ghost use Rattle.slab.specs.Slab.{get};
    ghost use Rattle.lwp_table.specs.declared.LwpData.{LwpData};
    ghost use Rattle.lwp_table.specs.Kept.{user_node, is_at, rows_from, IsWalk};

    ghost Value = { List LwpData };

    ghost view = { λ it. filter (is_at it.place) (rows_from (get it.rows.now) it.slots.now.entries it.births it.link) };

    ghost invariant = { λ it. IsWalk (get it.rows.now) it.slots.now.entries it.births user_node it.place it.link };
}

impl<'a> Iterator for OfUser<'a> {
    type Item = LwpData;

    ghost use Rattle.std.specs.Iterator.{YieldsFirst, item_count};

    ghost next_gives = { YieldsFirst (λ rest. rest) };

    ghost remaining = { item_count (λ rest. rest) };

    fn next(&mut self) -> Option<LwpData> {
        let slot = self.rows[self.link?];
        self.link = slot.user.next;
        Some(slot.row)
    }
}
