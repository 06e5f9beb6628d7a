//! Sets of numbers below 65536. Each page of 1,024 numbers that was begun has a bit for each of them.
//!
//! A walk over a user's processes goes by rising number, and a host has room for 64,000 of them. `next` finds the
//! next number of the set by whole words of 64 bits. A page gets its memory with its first number, so the set of a few
//! users' processes is small.

ghost use Rattle.std.specs.Prelude.{◌≡◌, ◌≢◌, ℕ, ◌+◌, ◌<◌, ◌≤◌, true, false, ◌/◌, IfSome, IfNone, OnOk};
ghost use Rattle.proc_table.specs.Members.{has_bit, member, word_at, max_number, IsBegun};

use lwp_table::copy_items;
use std::alloc::{AllocError, Global};
use std::marker::Model;

/// The number of bits in a word.
const WIDTH: u32 = 64;

/// The number of words in a page.
const WORDS: u32 = 16;

/// The number of pages.
const PAGES: usize = 64;

/// The index of a page that was not begun.
const NONE: u8 = 255;

/// A set of numbers below 65536.
#[derive(Drop)]
pub struct NumberSet {
    /// The index of each page among `pages`, or `NONE`.
    indices: [u8; PAGES],
    pages: Vec<[u64; WORDS as usize]>,
}

impl Model for NumberSet {
    ghost use Rattle.std.specs.Prelude.{[], length, vec_capacity};
    ghost use Rattle.lwp_table.specs.Places.{placed, room_of};
    ghost use Rattle.proc_table.specs.Members.{Numbers, IsPaged};

    ghost Value = { Numbers };

    ghost view = { λ s. record {
      pages = placed [] s.pages.items s.indices;
      spare = room_of (vec_capacity s.pages) (length s.pages.items);
    } };

    ghost invariant = { λ s. IsPaged s.indices s.pages.items };
}

/// Copies all pages that were begun. Fails when out of memory.
impl Clone for NumberSet {
    ghost is_clone = { λ set copy. copy.pages ≡ set.pages };

    fn clone(&self) -> Result<NumberSet, AllocError> {
        let mut pages = Vec::with_capacity(*self.pages.allocator(), self.pages.len())?;
        pages.extend_from_slice(self.pages.as_slice())?;
        Ok(NumberSet {
            indices: self.indices,
            pages,
        })
    }
}

/// Returns the first place, from `from` on, at which the word has a 1.
fn first_one(word: u64, from: u32) -> Option<u32>
    requires { from < 64 }
    ensures some { IfSome result (λ r. (from ≤ r) × (r < 64) × (has_bit word r ≡ true)
        × ((i : ℕ) → from ≤ i → i < r → has_bit word i ≡ false)) }
    ensures none { IfNone result ((i : ℕ) → from ≤ i → i < 64 → has_bit word i ≡ false) }
{
    let rest = word >> from;
    if rest == 0 {
        None
    } else {
        Some(from + rest.trailing_zeros())
    }
}

impl NumberSet {
    /// Returns an empty set, which takes no memory.
    pub fn new(alloc: Global) -> NumberSet
        ensures { (n : ℕ) → member result.pages n ≡ false }
    {
        NumberSet {
            indices: [NONE; PAGES],
            pages: Vec::new(alloc),
        }
    }

    /// Makes the set equal to the source. Fails when out of memory, and then the set is any.
    #[inline(always)]
    pub fn copy_from(&mut self, source: &NumberSet) -> Result<(), AllocError>
        ensures { OnOk result (self.new.pages ≡ source.now.pages) }
    {
        self.indices = [NONE; PAGES];
        copy_items(&mut self.pages, &source.pages)?;
        self.indices = source.indices;
        Ok(())
    }

    /// Makes room for `count` more numbers. Fails when out of memory.
    #[tactic(auto, using(crate::proofs::Bits::few_pages))]
    pub fn reserve(&mut self, count: usize) -> Result<(), AllocError>
        ensures room { OnOk result (count ≤ self.new.spare) }
        ensures pages { self.new.pages ≡ self.old.pages }
        ensures spare { self.old.spare ≤ self.new.spare }
    {
        let more = count.min(PAGES - self.pages.len());
        self.pages.reserve(more)
    }

    /// Returns word `k`.
    #[inline(always)]
    #[tactic(auto, using(crate::proofs::Bits::word_past, crate::proofs::Bits::word_is))]
    fn word(&self, k: u32) -> u64
        ensures { result ≡ word_at self.now.pages k }
    {
        let Some(index) = self.indices.get((k / WORDS) as usize) else {
            return 0;
        };
        match self.pages.get(*index as usize) {
            Some(page) => page[(k % WORDS) as usize],
            None => 0,
        }
    }

    /// Begins the page of the number, if it was not begun. Allocates nothing.
    #[tactic(auto, using(crate::proofs::Bits::few_pages, crate::proofs::Bits::free_page, crate::proofs::Bits::begun_page, crate::proofs::Bits::paged_with, crate::proofs::Bits::words_with, crate::proofs::Bits::begun_with, crate::proofs::Bits::begun_still))]
    pub fn begin_page(&mut self, number: u32)
        requires number { number < max_number }
        requires room { 0 < self.old.spare }
        ensures begun { IsBegun self.new.pages (number / 64) }
        ensures others { (k : ℕ) → IsBegun self.old.pages k → IsBegun self.new.pages k }
        ensures numbers { (n : ℕ) → member self.new.pages n ≡ member self.old.pages n }
        ensures spare { self.old.spare ≤ self.new.spare + 1 }
    {
        let place = (number / WIDTH / WORDS) as usize;
        if (self.indices[place] as usize) < self.pages.len() {
            return;
        }
        self.indices[place] = self.pages.len() as u8;
        self.pages.push_reserved([0; WORDS as usize]);
    }

    /// Replaces word `k`, whose page was begun.
    #[tactic(auto, using(crate::proofs::Bits::begun_index, crate::proofs::Bits::paged_set, crate::proofs::Bits::word_put, crate::proofs::Bits::others_put))]
    fn set_word(&mut self, k: u32, word: u64)
        requires number { k < 1024 }
        requires begun { IsBegun self.old.pages k }
        ensures word { word_at self.new.pages k ≡ word }
        ensures others { (j : ℕ) → j ≢ k → word_at self.new.pages j ≡ word_at self.old.pages j }
        ensures pages { (j : ℕ) → IsBegun self.old.pages j → IsBegun self.new.pages j }
        ensures spare { self.new.spare ≡ self.old.spare }
    {
        let index = self.indices[(k / WORDS) as usize] as usize;
        self.pages[index][(k % WORDS) as usize] = word;
    }

    /// Tests whether the set contains the number.
    pub fn contains(&self, number: u32) -> bool
        ensures { result ≡ member self.now.pages number }
    {
        self.word(number / WIDTH) >> (number % WIDTH) & 1 == 1
    }

    /// Adds the number to the set, or removes it if `is_member` is false. Its page was begun.
    #[inline(always)]
    pub fn put(&mut self, number: u32, is_member: bool)
        requires number { number < max_number }
        requires begun { IsBegun self.old.pages (number / 64) }
        ensures here { member self.new.pages number ≡ is_member }
        ensures others { (n : ℕ) → n ≢ number → member self.new.pages n ≡ member self.old.pages n }
        ensures pages { (k : ℕ) → IsBegun self.old.pages k → IsBegun self.new.pages k }
        ensures spare { self.new.spare ≡ self.old.spare }
    {
        let k = number / WIDTH;
        let word = self.word(k);
        let bit = 1 << (number % WIDTH);
        self.set_word(k, if is_member { word | bit } else { word & !bit });
    }

    /// Returns the first number from `from` to below `end` that is in the set.
    pub fn next(&self, from: u32, end: u32) -> Option<u32>
        requires { end ≤ max_number }
        ensures some { IfSome result (λ r. (from ≤ r) × (r < end) × (member self.now.pages r ≡ true)
            × ((n : ℕ) → from ≤ n → n < r → member self.now.pages n ≡ false)) }
        ensures none { IfNone result ((n : ℕ) → from ≤ n → n < end → member self.now.pages n ≡ false) }
    {
        let mut at = from;
        while at < end {
            let base = at / WIDTH * WIDTH;
            if let Some(place) = first_one(self.word(at / WIDTH), at % WIDTH) {
                let number = base + place;
                return if number < end { Some(number) } else { None };
            }
            at = base.saturating_add(WIDTH);
        }
        None
    }
}
