ghost use Rattle.std.specs.Prelude.{◌≡◌, ◌==◌, nat_eq, length, slice_get, IfOk};
ghost use Rattle.std.specs.Cmp.{partial_equiv_from_equiv};
ghost use Rattle.std.proofs.lemmas.Cmp.{nat_list_eq_equiv};
ghost use Rattle.std.specs.Cmp.Lexicographic.{pointwise};

use crate::NumList;
use std::alloc::{AllocError, Global};

impl NumList {
    /// Returns the list of a vector's numbers.
    pub fn of(numbers: Vec<u32>) -> NumList
        ensures { result ≡ numbers.items }
    {
        NumList { numbers }
    }

    /// Returns the list's length.
    pub fn len(&self) -> usize
        ensures { result ≡ length self.now }
    {
        self.numbers.len()
    }

    /// Tests whether the list is empty.
    pub fn is_empty(&self) -> bool
        ensures { result ≡ (length self.now == 0) }
    {
        self.numbers.is_empty()
    }

    /// Returns the number at a place, or `None` past the end of the list.
    pub fn get(&self, place: usize) -> Option<u32>
        ensures { result ≡ slice_get self.now place }
    {
        self.numbers.get(place).copied()
    }

    /// Returns the numbers, in their order.
    pub fn as_slice(&self) -> &[u32]
        ensures { result.now ≡ self.now }
    {
        self.numbers.as_slice()
    }

    /// Returns another list of the same numbers. Fails when out of memory.
    pub fn copy(&self, alloc: Global) -> Result<NumList, AllocError>
        ensures { IfOk result (λ list. list ≡ self.now) }
    {
        let numbers = Vec::from_slice(alloc, self.as_slice())?;
        Ok(NumList { numbers })
    }
}

/// Lists are equal if they have the same numbers in the same order.
impl PartialEq for NumList {
    ghost eq = { pointwise nat_eq };

    ghost laws = { partial_equiv_from_equiv nat_list_eq_equiv };

    fn eq(&self, other: &NumList) -> bool {
        self.as_slice() == other.as_slice()
    }
}

impl Eq for NumList {
    ghost laws = { nat_list_eq_equiv };
}
