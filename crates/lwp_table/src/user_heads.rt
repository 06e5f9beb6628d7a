//! The ends of the users' lists. A list takes memory once its user has had a row.

ghost use Rattle.std.specs.Prelude.{◌≡◌, ◌<◌, ◌≤◌, ◌+◌, get_or, set, replicate, OnOk};
ghost use Rattle.lwp_table.specs.Kept.{empty_head};

use crate::copies::copy_items;
use crate::links::ListHead;
use std::alloc::{AllocError, Global};
use std::marker::Model;

/// The number of users.
const USERS: usize = 64;

/// The index of a user without a list.
const NONE: u8 = 255;

/// The ends of each user's list.
#[derive(Drop)]
pub struct UserHeads {
    /// The index of each user's ends among `heads`, or `NONE`.
    indices: [u8; USERS],
    heads: Vec<ListHead>,
}

impl Model for UserHeads {
    ghost use Rattle.std.specs.Prelude.{length, vec_capacity};
    ghost use Rattle.lwp_table.specs.Kept.{Heads, empty_head};
    ghost use Rattle.lwp_table.specs.Places.{placed, room_of, ArePlaced};

    ghost Value = { Heads };

    ghost view = { λ t. record {
      items = placed empty_head t.heads.items t.indices;
      spare = room_of (vec_capacity t.heads) (length t.heads.items);
    } };

    ghost invariant = { λ t. ArePlaced t.indices (length t.heads.items) };
}

impl Clone for UserHeads {
    ghost is_clone = { λ heads copy. copy.items ≡ heads.items };

    fn clone(&self) -> Result<UserHeads, AllocError> {
        Ok(UserHeads {
            indices: self.indices,
            heads: self.heads.clone()?,
        })
    }
}

impl UserHeads {
    /// Returns the ends of empty lists, which take no memory.
    #[tactic(auto, using(crate::proofs::PlaceLemmas::none_placed))]
    pub fn new(alloc: Global) -> UserHeads
        ensures { result.items ≡ replicate 64 empty_head }
    {
        UserHeads {
            indices: [NONE; USERS],
            heads: Vec::new(alloc),
        }
    }

    /// Makes the ends those of the source. Fails when out of memory.
    #[inline(always)]
    #[tactic(auto, using(crate::proofs::PlaceLemmas::none_placed))]
    pub fn copy_from(&mut self, source: &UserHeads) -> Result<(), AllocError>
        ensures { OnOk result (self.new.items ≡ source.now.items) }
    {
        self.indices = [NONE; USERS];
        copy_items(&mut self.heads, &source.heads)?;
        self.indices = source.indices;
        Ok(())
    }

    /// Makes room for the lists of `count` more users, or of all users if they are fewer.
    #[tactic(auto, using(crate::proofs::PlaceLemmas::few))]
    pub fn reserve(&mut self, count: usize) -> Result<(), AllocError>
        ensures room { OnOk result (count ≤ self.new.spare) }
        ensures items { self.new.items ≡ self.old.items }
        ensures spare { self.old.spare ≤ self.new.spare }
    {
        let more = count.min(USERS - self.heads.len());
        self.heads.reserve(more)
    }

    /// Returns the ends of the list of the user at this place.
    #[tactic(auto, using(crate::proofs::PlaceLemmas::value_at))]
    pub fn at(&self, place: usize) -> ListHead
        requires { place < 64 }
        ensures { result ≡ get_or self.now.items place empty_head }
    {
        match self.heads.get(self.indices[place] as usize) {
            Some(head) => *head,
            None => ListHead::empty(),
        }
    }

    /// Replaces the ends of the list of the user at this place.
    #[tactic(auto, using(crate::proofs::PlaceLemmas::replaced, crate::proofs::PlaceLemmas::are_with, crate::proofs::PlaceLemmas::placed_with, crate::proofs::PlaceLemmas::free))]
    pub fn set(&mut self, place: usize, head: ListHead)
        requires place { place < 64 }
        requires room { 0 < self.old.spare }
        ensures items { self.new.items ≡ set self.old.items place head }
        ensures spare { self.old.spare ≤ self.new.spare + 1 }
    {
        let index = self.indices[place] as usize;
        if index < self.heads.len() {
            self.heads[index] = head;
            return;
        }
        self.indices[place] = self.heads.len() as u8;
        // a struct of the same fields, since the check of a push of `head` itself doesn't find its type's modules
        self.heads.push_reserved(ListHead { ..head });
    }

    /// Replaces the ends of the list of the user at this place. The list isn't empty.
    #[tactic(auto, using(crate::proofs::PlaceLemmas::replaced, crate::proofs::PlaceLemmas::value_at))]
    pub fn replace(&mut self, place: usize, head: ListHead)
        requires place { place < 64 }
        requires there { 0 < (get_or self.old.items place empty_head).count }
        ensures items { self.new.items ≡ set self.old.items place head }
        ensures spare { self.new.spare ≡ self.old.spare }
    {
        let index = self.indices[place] as usize;
        self.heads[index] = head;
    }
}
