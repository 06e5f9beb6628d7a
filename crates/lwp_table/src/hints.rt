//! Guesses at the places of rows, so that most look-ups need no hash.

use crate::copies::copy_items;
use crate::hasher::NumberIndex;
use std::alloc::{AllocError, Global};

/// The least number of hints, once there is a row.
const LEAST: usize = 128;

/// The greatest number of hints. With so many, each process number of all users has its own in a table of processes.
const MOST: usize = 65536;

/// How many hints there are for each row.
const SHARE: usize = 4;

/// For each remainder of numbers, the slot that the last new row with such a number got. A hint may be any slot:
/// whoever asks compares the slot's row. There are none before the first row. Their number grows by powers of two, so a
/// small table has few to copy.
#[derive(Clone, Drop)]
pub struct Hints {
    slots: Vec<u16>,
}

impl Hints {
    /// Returns no hints.
    pub fn new(alloc: Global) -> Hints {
        Hints {
            slots: Vec::new(alloc),
        }
    }

    /// Makes the hints those of the source. Fails when out of memory.
    #[inline(always)]
    pub fn copy_from(&mut self, source: &Hints) -> Result<(), AllocError> {
        copy_items(&mut self.slots, &source.slots)
    }

    /// Returns the slot that was noted for the number, or another one.
    #[inline(always)]
    pub fn slot(&self, number: u32) -> usize {
        let last = self.slots.len().wrapping_sub(1);
        match self.slots.get(number as usize & last) {
            Some(slot) => *slot as usize,
            None => 0,
        }
    }

    /// Notes the slot of a new row with the number. `there` is the number of the row in the slot that was noted before: if
    /// this is that row's hint, it stays, since long-lived rows are looked up most.
    #[inline(always)]
    pub fn note_new(&mut self, number: u32, slot: usize, there: Option<u32>) {
        let last = self.slots.len().wrapping_sub(1);
        let is_its_hint = there.is_some_and(|other| (other ^ number) as usize & last == 0);
        if !is_its_hint {
            self.note(number, slot);
        }
    }

    /// Notes the slot of a row with the number.
    #[inline(always)]
    pub(crate) fn note(&mut self, number: u32, slot: usize) {
        let last = self.slots.len().wrapping_sub(1);
        if let Some(place) = self.slots.get_mut(number as usize & last) {
            *place = u16::try_from(slot).unwrap_or(0);
        }
    }

    /// Makes hints for this many rows, whose numbers are in the index. Fails when out of memory.
    #[inline(always)]
    pub fn reserve(&mut self, index: &NumberIndex<usize>, rows: usize) -> Result<(), AllocError> {
        if self.are_few(rows) {
            self.grow_with(index, rows)?;
        }
        Ok(())
    }

    /// Tests whether there should be more hints for this many rows.
    #[inline(always)]
    pub(crate) fn are_few(&self, rows: usize) -> bool {
        self.slots.len() < MOST && self.slots.len() / SHARE < rows
    }

    /// Makes hints for this many rows, and notes those of the index anew.
    #[inline(never)]
    fn grow_with(&mut self, index: &NumberIndex<usize>, rows: usize) -> Result<(), AllocError> {
        self.grow(rows)?;
        for (number, slot) in index.iter() {
            self.note(*number, *slot);
        }
        Ok(())
    }

    /// Makes hints for this many rows. All rows have to be noted anew.
    pub(crate) fn grow(&mut self, rows: usize) -> Result<(), AllocError> {
        let wanted = rows.min(MOST / SHARE) * SHARE;
        self.slots.resize(wanted.max(LEAST).next_power_of_two(), 0)
    }
}
